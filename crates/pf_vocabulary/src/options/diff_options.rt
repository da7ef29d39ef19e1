/// How a diff is told, and how it ends.
#[derive(Clone, Copy)]
pub struct DiffOptions {
    /// Whether a table of what each desk comes to stands before the four tables.
    pub summary: bool,
    /// Whether the status is 1 where something differs.
    pub exit_code: bool,
}
