ghost use Rattle.std.specs.Prelude.{◌≡◌, ◌<◌, ◌≤◌, ◌+◌, ◌++◌, ◌∷◌, [], length, map, min, All, OnOk};
ghost use Rattle.std.specs.List.{slice_index_or};
ghost use Rattle.pf_desk.specs.Recorded.{slots_of};
ghost use Rattle.pf_desk.specs.Settled.{KeepsRoom, HasRoomFor, count_wide, nothing_settled};
ghost use Rattle.pf_desk.specs.Settlements.{IsWithin, settled_at};
ghost use Rattle.pf_desk.specs.Laid.{settled_of};

use crate::entry::Entry;
use crate::settled::Settled;
use crate::small_edit::SmallEdit;
use std::alloc::{AllocError, Global};
use std::marker::Model;

/// How a command that took no slot is kept with its answer.
#[derive(Clone, Copy, Debug)]
enum Kept {
    /// In small, as most are.
    Small(SmallEdit),
    /// Apart.
    Wide {
        /// Its place among those apart.
        index: usize,
    },
}

const _: () = prove!(size_of::<Kept>() == 40);

impl Kept {
    /// The command with its answer, where these are those apart.
    fn settled(self, wide: &[Settled]) -> Settled
        requires { IsWithin (length wide.now) self }
        ensures { result ≡ settled_at wide.now self }
    {
        match self {
            Kept::Small(small) => small.settled(),
            Kept::Wide { index } => wide[index],
        }
    }
}

/// The commands that took no slot, each with its answer. An edit that was made or has a fault takes 40 bytes, where its event
/// has a packed form and its number is below 2^32; any other command stands apart too.
#[derive(Debug, Drop)]
pub(crate) struct Settlements {
    kept: Vec<Kept>,
    wide: Vec<Settled>,
}

impl Model for Settlements {
    ghost use Rattle.std.specs.Prelude.{map, All, length};
    ghost use Rattle.std.specs.Vec.{vec_capacity};
    ghost use Rattle.pf_desk.specs.Settled.{Listed};

    ghost Value = { Listed };

    ghost use Rattle.pf_desk.specs.Settlements.{IsWithin, listed_by};

    ghost view = { λ s. listed_by s.kept.items s.wide.items (vec_capacity s.kept) (vec_capacity s.wide) };

    ghost invariant = { λ s. All (IsWithin (length s.wide.items)) s.kept.items };
}

impl Settlements {
    /// None.
    pub(crate) fn new(alloc: Global) -> Self
        ensures { result.items ≡ [] }
    {
        Settlements {
            kept: Vec::new(alloc),
            wide: Vec::new(alloc),
        }
    }

    /// How many there are.
    pub(crate) fn len(&self) -> usize
        ensures { result ≡ length self.now.items }
    {
        self.kept.len()
    }

    /// The k-th, which must be there.
    pub(crate) fn get(&self, k: usize) -> Settled
        requires { k < length self.now.items }
        ensures { result ≡ slice_index_or self.now.items k nothing_settled }
    {
        self.kept[k].settled(&self.wide)
    }

    /// Makes room for any one more.
    ///
    /// # Errors
    ///
    /// Where memory is refused.
    pub(crate) fn reserve(&mut self) -> Result<(), AllocError>
        ensures ok { OnOk result (1 ≤ min self.new.room self.new.wide_room) }
        ensures items { self.new.items ≡ self.old.items }
        ensures room { KeepsRoom self.old self.new }
    {
        self.kept.reserve(1)?;
        self.wide.reserve(1)
    }

    /// Makes room for what is kept of these entries, which must have taken no slot.
    ///
    /// # Errors
    ///
    /// Where memory is refused.
    pub(crate) fn reserve_for(&mut self, entries: &[Entry]) -> Result<(), AllocError>
        requires { All (λ e. slots_of e.reply ≡ 0) entries.now }
        ensures ok { OnOk result (HasRoomFor self.new (map settled_of entries.now)) }
        ensures items { self.new.items ≡ self.old.items }
        ensures room { KeepsRoom self.old self.new }
    {
        self.kept.reserve(entries.len())?;
        self.wide.reserve(wide_among(entries))
    }

    /// Appends one. There must be room; it takes no memory.
    pub(crate) fn push_reserved(&mut self, settled: Settled)
        requires { HasRoomFor self.old (settled ∷ []) }
        ensures items { self.new.items ≡ self.old.items ++ settled ∷ [] }
        ensures room { self.old.room ≤ self.new.room + 1 }
        ensures wide_room { self.old.wide_room ≤ self.new.wide_room + count_wide (settled ∷ []) }
    {
        match SmallEdit::of(&settled) {
            Some(small) => self.kept.push_reserved(Kept::Small(small)),
            None => {
                let index = self.wide.len();
                self.wide.push_reserved(settled);
                self.kept.push_reserved(Kept::Wide { index });
            }
        }
    }
}

/// How many of these entries, which must have taken no slot, have no small form.
fn wide_among(entries: &[Entry]) -> usize
    requires { All (λ e. slots_of e.reply ≡ 0) entries.now }
    ensures { result ≡ count_wide (map settled_of entries.now) }
{
    let mut count = 0;
    for entry in entries {
        if SmallEdit::of(&Settled::of(entry)).is_none() {
            count += 1;
        }
    }
    count
}
