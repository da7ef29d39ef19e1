ghost use Rattle.std.specs.Prelude.{◌≡◌, ◌≤◌, IfSome};
ghost use Rattle.std.specs.Cmp.{partial_equiv_from_equiv};
ghost use Rattle.std.specs.Cmp.Lexicographic.{options_equiv};
ghost use Rattle.std.specs.Cmp.Rules.{comparing};
ghost use Rattle.std.specs.Option.{option_eq};
ghost use Rattle.std.proofs.Common.{rules};
ghost use Rattle.pf_place.specs.Same.{same_pick};
ghost use Rattle.pf_place.specs.Small.{small_form};

use crate::place::Place;
use pf_order::pick::Pick;
use std::marker::Model;

/// How many subtasks of a task have a small place.
const SUBTASKS: u32 = 1 << 20;

/// How many numbers a task with a small place can have.
const TASKS: u32 = 1 << 12;

/// A place in four bytes: a task's number below 2^12, and that of its subtask below 2^20, as all are in ordinary settings.
#[derive(Clone, Copy, Debug)]
pub(crate) struct SmallPlace {
    word: u32,
}

const _: () = prove!(size_of::<SmallPlace>() == 4);

impl Model for SmallPlace {
    ghost use Rattle.std.specs.Prelude.{Option};
    ghost use Rattle.pf_order.specs.declared.pick.Pick.{Pick};
    ghost use Rattle.pf_place.specs.Small.{IsWord, pick_in, word_of};

    ghost Value = { Option Pick };

    ghost view = { λ place. pick_in place.word };

    ghost invariant = { λ place. IsWord place.word };

    ghost inverse = { λ seated. record { word = word_of seated } };
}

// Places are equal where the same subtask runs there, or both are idle.
impl PartialEq for SmallPlace {
    ghost eq = { option_eq same_pick };

    ghost laws = { partial_equiv_from_equiv (options_equiv (Prim.search (comparing, rules))) };

    fn eq(&self, other: &SmallPlace) -> bool {
        self.word == other.word
    }
}

impl SmallPlace {
    /// The same place in small, where its numbers allow it.
    pub(crate) fn of(place: Place) -> Option<Self>
        ensures { result ≡ small_form place }
    {
        match place.pick() {
            None => Some(SmallPlace { word: 0 }),
            Some(pick) if pick.task < TASKS && pick.sub < SUBTASKS => Some(SmallPlace {
                word: pick.task * SUBTASKS + pick.sub,
            }),
            Some(_) => None,
        }
    }

    /// The same place.
    pub(crate) fn place(self) -> Place
        ensures { result ≡ self }
    {
        match self.pick() {
            Some(pick) => Place::of(pick),
            None => Place::idle(),
        }
    }

    /// The pick that runs there; none where the place is idle.
    pub(crate) fn pick(self) -> Option<Pick>
        ensures seated { result ≡ self }
        ensures numbered { IfSome result (λ pick. 1 ≤ pick.task) }
    {
        if self.word == 0 {
            return None;
        }
        Some(Pick {
            task: self.word / SUBTASKS,
            sub: self.word % SUBTASKS,
        })
    }
}
