//! Edits in the past, though memory may be refused.

use crate::delayed::is_delayed;
use crate::three_tasks::{is_limited, is_struck};

#[test]
fn edits_refused_memory(rt: HostRuntime) {
    is_struck(&rt);
    is_limited(&rt);
    is_delayed(&rt);
}
