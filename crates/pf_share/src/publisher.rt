ghost use Rattle.std.specs.Prelude.{◌≡◌, ◌<◌, ◌^◌, [], IfOk, MatchResult};
ghost use mathlib.Core.List.{IsPrefix};
ghost use Rattle.left_right.specs.Sides.{view};
ghost use Rattle.pf_share.specs.Reads.{IsAcquainted};

use crate::readers_rule::{Acquaint, Publish, ShownReader, ShownWriter};
use crate::shown::Shown;
use std::alloc::{AllocError, Global};
use std::marker::Model;
use std::mem;
use std::sync::Wait;

/// Shows snapshots to viewers. Contracts see the numbered history that is shown. Whoever drops it waits for those that
/// still read.
pub struct Publisher<H: Wait + Drop> {
    /// There but in the midst of a call.
    writer: Option<ShownWriter>,
    rt: H,
}

impl<H: Wait + Drop> Model for Publisher<H> {
    ghost use Rattle.pf_share.specs.Stories.{Stamped, nothing_stamped};
    ghost use Rattle.pf_share.specs.Reads.{of_some, nothing_read, IsAcquainted};

    ghost Value = { Stamped };

    ghost view = { λ p. of_some nothing_stamped (λ w. w.desk.shown.value) p.writer };

    ghost invariant = { λ p. IsAcquainted (of_some nothing_stamped (λ w. w.desk.shown.value) p.writer) (of_some nothing_read (λ w. w.desk.place.me.0.client) p.writer) };
}

impl<H: Wait + Drop> Drop for Publisher<H> {
    fn drop(self) {
        let Publisher { writer, rt } = self;
        if let Some(writer) = writer {
            writer.take(&rt);
        }
    }
}

impl<H: Wait + Drop> Publisher<H> {
    /// Shows this to so many readers at most.
    ///
    /// # Errors
    ///
    /// Where memory is refused.
    pub(crate) fn new(
        rt: H,
        alloc: Global,
        shown: Shown,
        readers: usize,
    ) -> Result<Publisher<H>, AllocError>
        requires { (0 < readers) × (readers < 2 ^ 32) }
        ensures { IfOk result (λ p. p ≡ shown) }
    {
        let second = shown.again()?;
        let writer = ShownWriter::new(alloc, shown, second, readers)?;
        let (writer, published) = writer.publish_as::<Publish, H>(&rt);
        if let Err(error) = published {
            writer.take(&rt);
            return Err(error);
        }
        Ok(Publisher {
            writer: Some(writer),
            rt,
        })
    }

    /// A new reader's place. The reader knows where what is shown is from.
    ///
    /// # Errors
    ///
    /// Where there is no place left.
    pub(crate) fn reader(&mut self) -> Result<ShownReader, AllocError>
        ensures same { self.new ≡ self.old }
        ensures reader { IfOk result (λ r. IsAcquainted self.old (view r.place) × ((view r.place).reads ≡ [])) }
    {
        let Some(writer) = &mut self.writer else {
            unreachable!();
        };
        acquainted_reader(writer)
    }

    /// Shows this, which goes on from what is shown.
    ///
    /// # Errors
    ///
    /// Where memory is refused: what was shown is shown still.
    pub(crate) fn publish<R: Wait>(&mut self, rt: &R, shown: Shown) -> Result<(), AllocError>
        requires grows { IsPrefix self.old.history shown.history }
        requires origin { self.old.origin ≡ shown.origin }
        ensures { MatchResult result (λ _. self.new ≡ shown) (λ _. self.new ≡ self.old) }
    {
        let Some(writer) = self.writer.take() else {
            unreachable!();
        };
        let (writer, published) = show(rt, writer, shown);
        if let Some(old) = mem::replace(&mut self.writer, Some(writer)) {
            old.take(&self.rt);
        }
        published
    }

    /// Shows no more. It waits for those that still read.
    pub(crate) fn end(self, rt: &impl Wait) {
        let Publisher { writer, rt: _ } = self;
        if let Some(writer) = writer {
            writer.take(rt);
        }
    }
}

/// A reader that was told what the writer knows.
fn acquainted_reader(writer: &mut ShownWriter) -> Result<ShownReader, AllocError>
    requires { IsAcquainted writer.old.desk.shown.value (view writer.old.desk.place) }
    ensures shown { writer.new.desk.shown ≡ writer.old.desk.shown }
    ensures known { view writer.new.desk.place ≡ view writer.old.desk.place }
    ensures reader { IfOk result (λ r. IsAcquainted writer.old.desk.shown.value (view r.place) × ((view r.place).reads ≡ [])) }
{
    let mut reader = writer.factory().reader()?;
    reader.learn::<Acquaint>(writer.tell::<Acquaint>());
    Ok(reader)
}

/// Shows this. With an error what was shown is shown still; what stays pending is replaced by the next one.
fn show<R: Wait>(
    rt: &R,
    mut writer: ShownWriter,
    shown: Shown,
) -> (ShownWriter, Result<(), AllocError>)
    requires grows { IsPrefix writer.desk.shown.value.history shown.history }
    requires origin { writer.desk.shown.value.origin ≡ shown.origin }
    requires acquainted { IsAcquainted writer.desk.shown.value (view writer.desk.place) }
    ensures shown { MatchResult result.1 (λ _. result.0.desk.shown.value ≡ shown) (λ _. result.0.desk.shown.value ≡ writer.desk.shown.value) }
    ensures acquainted { IsAcquainted result.0.desk.shown.value (view result.0.desk.place) }
{
    match writer.append(shown) {
        Ok(()) => writer.publish_as::<Publish, R>(rt),
        Err(_) => (writer, Err(AllocError)),
    }
}
