//! What no clause of the desk and of its reports says: that calls succeed where memory is ample, that a call whose memory was
//! refused succeeds when it is made again, and the texts of faults; and desks that were worked out by hand. That a refused call
//! leaves all as it was, its clauses say; for edits in the past it is compared too.
#![tactic(auto)]

#[cfg(test)]
mod asked;
pub mod base;
#[cfg(test)]
mod case;
#[cfg(test)]
mod costs;
#[cfg(test)]
mod delayed;
#[cfg(test)]
mod edits;
#[cfg(test)]
mod plan;
#[cfg(test)]
mod prepared;
#[cfg(test)]
mod refused;
#[cfg(test)]
mod report;
#[cfg(test)]
mod shown;
#[cfg(test)]
mod snapshots;
#[cfg(test)]
mod texts;
#[cfg(test)]
mod three_tasks;
