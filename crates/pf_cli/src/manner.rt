//! How a session at a desk answers.
ghost use Rattle.std.specs.Prelude.{◌≡◌};
ghost use Rattle.pf_arguments.specs.Asked.{desk_named};
ghost use Rattle.pf_cli.specs.Desks.{manner_of};

use pf_answers::manner::Manner;
use pf_arguments::desk_words::DeskWords;

/// How the session answers that words ask for.
pub(crate) fn manner_of(words: &DeskWords) -> Manner
    ensures { result ≡ manner_of (desk_named words.now) }
{
    Manner {
        json: words.json,
        quiet: words.quiet,
        whole: words.json || words.journal.is_some(),
    }
}
