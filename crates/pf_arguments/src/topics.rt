//! What `help` tells of a topic that several commands have in common.
ghost use Rattle.std.specs.Prelude.{◌≡◌, map, option_map};
ghost use Rattle.pf_arguments.specs.Help.{topic_asked, topic_named};

pub mod formats;
pub mod list;
pub mod plan;
pub mod script;
pub mod status;

use crate::topics::formats::FORMATS;
use crate::topics::list::LIST;
use crate::topics::plan::PLAN;
use crate::topics::script::SCRIPT;
use crate::topics::status::STATUS;
use std::convert::AsStr;

/// The text of the topic that words ask for: `help` and its name; none where they ask for none.
#[tactic(auto, unfolding(crate::specs::Help::topic_asked))]
pub(crate) fn topic_asked<S: AsStr>(words: &[S]) -> Option<&'static str>
    ensures { option_map (λ text. text.now) result ≡ topic_asked (map S.text words.now) }
{
    match words {
        [first, second] if first.as_str() == "help" => topic_named(second.as_str()),
        _ => None,
    }
}

/// The text of the topic of this name.
#[tactic(auto, unfolding(crate::specs::Help::topic_named))]
fn topic_named(name: &str) -> Option<&'static str>
    ensures { option_map (λ text. text.now) result ≡ topic_named name.now }
{
    match name {
        "plan" => Some(PLAN),
        "list" => Some(LIST),
        "formats" => Some(FORMATS),
        "status" => Some(STATUS),
        "script" => Some(SCRIPT),
        _ => None,
    }
}
