//! What is told of words that the grammar takes, but that ask for nothing. The one contract of this folder: a line, which in a whole
//! message shows the value that is mistaken, and where notes are told what would be right.

mod formats;
mod hint;
mod lists;
mod near;
mod slot;
pub(crate) mod text;
mod value;
