use pf_vocabulary::names::names::Names;
use std::alloc::Global;

/// How the records of a script are told.
#[derive(Drop)]
pub(crate) struct Telling<'a> {
    /// Where it takes its memory.
    pub(crate) alloc: Global,
    /// The name of the file.
    pub(crate) file: &'a [u8],
    /// Whether hints are told.
    pub(crate) hints: bool,
    /// The names of the tasks.
    pub(crate) names: &'a Names,
    /// Whether all refused records are kept.
    pub(crate) whole: bool,
}
