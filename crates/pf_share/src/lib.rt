//! One desk for many threads: how it is opened and ended, what is shown to viewers, what lies under the lock, and the calls of
//! planners, dispatchers and readers.
#![tactic(auto)]

pub mod blank;
pub mod calls;
pub mod closed;
pub mod done;
pub mod fault;
pub mod locked;
pub mod naming;
pub mod opened;
pub mod press;
mod publication;
mod publisher;
mod readers_rule;
pub mod reads;
pub mod shared;
pub mod shown;
pub mod shown_desk;
pub mod stamp;
pub mod step_refusal;
pub mod story;
mod story_rule;
pub mod tells;
mod unclosed;
pub mod unread;
pub mod viewer;
