/// Where a record of a script of version 2 comes from: a record of the plan.
#[derive(Clone, Copy)]
pub struct Origin {
    /// Its number, counted from 1: the heading is 1.
    pub number: u64,
    /// The line of the file on which it begins, counted from 1.
    pub line: u64,
    /// The first byte of that line that is no blank, counted from 1.
    pub column: u64,
}
