//! The rule of the book that numbers histories.
use crate::story::Story;
use crate::tells::Tells;
use logbook::{Gain, Plain, Play, Rule};
use std::marker::PhantomData;

/// The first word counts the stories.
pub struct StoryRule;

impl Rule<Story, u64> for StoryRule {
    ghost use Rattle.std.specs.Prelude.{[]};
    ghost use base.Fml.{ftrue};
    ghost use Rattle.pf_share.specs.Stories.{CountsStories};

    ghost holds = { λ cells log. CountsStories cells log };

    ghost first = { [] };

    ghost hinted = { λ n log. Unit {0} };

    ghost shows = { λ log. [] };

    ghost keeps = { λ names log. ftrue };

    ghost moves = { λ ask before after answer. Unit {0} };
}

/// Callers trade nothing.
pub struct NoGain;

impl Gain<Story, u64> for NoGain {
    ghost use base.Fml.{ftrue};

    ghost after = { λ names about answer. ftrue };
}

/// A step that adds a story.
pub struct Add;

impl Play<Story, u64> for Add {
    ghost use Rattle.pf_share.specs.Stories.{Adds};

    ghost then = { Adds };
}

/// Asks to add the story that a value tells.
pub struct Asks<M> {
    tells: PhantomData<M>,
}

impl<X, M: Tells<X>> Plain<X, Story, u64> for Asks<M> {
    ghost use Rattle.std.specs.Prelude.{None};

    ghost ask = { λ x. M.story x };

    ghost state = { λ x. None };
}
