//! A list of tasks told in time made into a script in slots of a quantum: the arithmetic here, the list, the words and the answer in
//! folders. The one contract of this crate: costs and periods lose nothing and are the least and the greatest that do so, and the base is
//! the one with the least load among those that are named.
#![tactic(auto)]

pub mod best_base;
pub mod best_quantum;
pub mod conversion;
pub mod divided;
pub mod divisors;
pub mod fit;
pub mod laws;
pub mod list;
pub mod loaded;
pub mod margins;
pub mod multiples;
pub mod outcome;
pub mod plan;
pub mod plan_fault;
pub mod planning;
pub mod quantum;
pub mod quotients;
pub mod shown_quantum;
pub mod slot_fault;
pub mod slotted;
pub mod smooth;
pub mod stretch;
pub mod terms;
pub mod timed;
pub mod total;
pub mod words;
pub mod work;
