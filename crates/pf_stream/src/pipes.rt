//! A writer that keeps why it failed. The one contract of this folder: it acts as the writer underneath, and tells whether a write
//! failed since nobody reads any more.

pub mod kept_writer;
pub mod pipe;
