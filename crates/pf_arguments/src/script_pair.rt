use pf_vocabulary::options::diff_options::DiffOptions;

/// Two scripts that are compared. At most one of them is that of standard input.
#[derive(Drop)]
pub struct ScriptPair {
    /// The file of the first; none where it is that of standard input.
    pub first: Option<String>,
    /// The file of the second; none where it is that of standard input.
    pub second: Option<String>,
    /// How the diff of both is told, and how it ends.
    pub options: DiffOptions,
}
