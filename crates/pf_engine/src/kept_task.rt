use pf_admit::member::Member;

/// A task inside, as an engine keeps it.
#[derive(Clone, Copy)]
pub(crate) struct KeptTask {
    /// 1 to 4,095.
    pub(crate) task: u32,
    /// What is known of it.
    pub(crate) member: Member,
}
