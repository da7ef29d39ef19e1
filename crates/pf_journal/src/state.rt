/// What a file is, before a journal is opened on it.
#[derive(Clone, Copy, PartialEq, Eq)]
pub enum State {
    /// No record stands in it yet: it is empty, or a crash left it while its heading was written. So has each file of one
    /// byte at most, and each of at most nine whose first is a blank.
    New,
    /// A journal of this version, at rest or as a crash may have left it.
    Journal,
    /// A journal of this version, behind whose lines lies what no crash leaves. It is not written to.
    Damaged,
    /// Neither. It is not written to.
    Other,
}
