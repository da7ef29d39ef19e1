//! Whether a list of tasks fits, told as text or as JSON. The one contract of this folder: the answer is that of its definition, of
//! the plan that is shown, its margins, and which quanta were tried.

pub mod answer;
pub mod exactness;
pub mod filled;
pub mod fit;
pub mod ground;
pub mod headline;
pub mod json;
pub mod json_tail;
pub mod lateness;
pub mod next_step;
pub mod no_plan;
pub mod notes;
pub mod short;
pub mod shown;
pub mod shown_task;
pub mod table;
pub mod text;
