//! The rule of the readers' table, its kinds of step, and its types.
use crate::reads::Reads;
use crate::shown::Shown;
use atomic_table::{Join, Split};
use crossbeam_utils::rule::{Outcome, Protocol};
use left_right::reader::Reader;
use left_right::writer::Writer;

/// What is shown only grows, and stays of one book and of one desk's settings.
pub struct ReadersRule;

impl Protocol<Shown, Reads> for ReadersRule {
    ghost use Rattle.pf_share.specs.Reads.{FitAll, nothing_read};

    ghost holds = { λ x views. FitAll x views };

    ghost first = { nothing_read };
}

/// The writer shows a history, and knows its number.
pub struct Publish;

impl Outcome<Shown, Reads> for Publish {
    ghost use Rattle.pf_share.specs.Reads.{Publishes};

    ghost then = { λ v x y w. Publishes v y w };
}

/// A viewer reads.
pub struct Read;

impl Outcome<Shown, Reads> for Read {
    ghost use Rattle.std.specs.Prelude.{◌++◌, ◌∷◌, [], length};
    ghost use Rattle.pf_share.specs.Reads.{Sees};

    ghost then = { λ v x y w. Sees v y (v.reads ++ length y.history ∷ []) w };
}

/// A viewer finds which history is shown, to be told it: that is no read.
pub struct Learn;

impl Outcome<Shown, Reads> for Learn {
    ghost use Rattle.pf_share.specs.Reads.{Sees};

    ghost then = { λ v x y w. Sees v y v.reads w };
}

/// A new reader is told a number that was shown, so that it knows the book.
pub struct Acquaint;

impl Split<Reads> for Acquaint {
    ghost left = { λ v. v };

    ghost right = { λ v. v };
}

impl Join<Reads> for Acquaint {
    ghost use Rattle.pf_share.specs.Reads.{knowing, nothing_read};

    ghost both = { knowing };

    ghost spent = { nothing_read };
}

/// A place at the readers' table.
pub type ShownReader = Reader<Shown, Reads, ReadersRule>;

/// What shows snapshots to the readers. It is not `Drop`: end it by `take`.
pub type ShownWriter = Writer<Shown, Shown, Reads, ReadersRule>;
