use crate::questions::task_asked::TaskAsked;

/// How the answer is written.
#[derive(Clone, Copy)]
pub enum WhyFormat {
    /// As lines.
    Text,
    /// As one JSON object.
    Json,
}

/// What is asked of a slot.
#[derive(Drop)]
pub struct Question {
    /// The slot.
    pub slot: u64,
    /// The task that is asked for beside it, if one is.
    pub task: Option<TaskAsked>,
    /// How the answer is written.
    pub format: WhyFormat,
}
