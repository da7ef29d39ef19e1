/// Which records a script has: those of version 1 or 2, or those of a plan.
#[derive(Clone, Copy)]
pub enum ScriptKind {
    /// A script without a heading.
    First,
    /// A script that begins with the heading `pfair,2`.
    Second,
    /// A plan.
    Plan,
}
