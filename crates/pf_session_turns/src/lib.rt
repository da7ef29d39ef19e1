//! Who sits at a desk: a session that answers lines, and writes what it saves to files. The one contract of this crate: each line is
//! answered as the definitions say, after those before it, and a session that begins with a script stands where the script's records
//! leave it. Where memory is refused that is told: nothing has changed, or no further line is answered.
#![tactic(auto)]

mod answer;
pub mod files;
mod in_rows;
pub mod new_file;
pub mod opening;
mod save;
pub mod saver;
mod shown;
pub mod sitter;
mod turn;

// For whoever holds a session.
