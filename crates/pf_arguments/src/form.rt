/// How an argument is given.
pub(crate) enum Form {
    /// By its name alone.
    Flag,
    /// By its name and a text, which help calls so.
    Named(&'static str),
    /// By a text alone, which help calls so.
    Placed(&'static str),
}
