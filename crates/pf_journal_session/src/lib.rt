//! A session that is kept in a journal. The one contract of this crate: a session on a file begins after the records of the file, or
//! of a script where the file has none, and from then on the file has each line that is answered; a file that keeps no session is told
//! so, and is left as it is.
#![tactic(auto)]

pub mod begun;
pub mod unopened;

// For whoever holds such a session.
pub use sqlite_disk::Disk;
