//! What a run may be asked for: the format of its report, the slots that it tells of, and what it is to fail on. And how a diff is
//! told, and how it ends.

pub mod diff_options;
pub mod fail_on;
pub mod fit_format;
pub mod format;
pub mod slot_range;
