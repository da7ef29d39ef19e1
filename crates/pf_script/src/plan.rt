//! What plans tell, record by record. The one contract of this folder: a record says what the grammar of version
//! 3 gives its fields after the records before it, or has the first thing that is wrong with it.

pub mod fault;
pub mod heading;
pub mod labels;
mod number_fields;
mod parse;
mod parse_event;
pub mod said;
pub mod state;
