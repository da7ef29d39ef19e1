//! The board.
ghost use Rattle.std.specs.Prelude.{ℕ, ◌≡◌, ◌≢◌, ◌+◌, ◌<◌, ◌≤◌, ◌^◌, ◌++◌, ◌∷◌, [], true, false, length, drop, vec_len, IfOk, IfErr, IfSome, IfNone, MatchBool};
ghost use Rattle.std.specs.Vec.{vec_capacity};
ghost use Rattle.std.specs.Mem.Slots.{slots_items, slots_len, IsFull};
ghost use mathlib.Core.List.{IsPrefix};
ghost use Rattle.pf_board.specs.declared.quantum.Quantum.{Quantum};
ghost use Rattle.pf_board.specs.Quanta.{times, issues, is_step, quanta_without, AreApartQuanta};
ghost use Rattle.pf_board.specs.Closed.{Closes, hands_in};
ghost use Rattle.pf_board.specs.Seats.{IsTurn};
ghost use Rattle.pf_board.specs.Takes.{Grabs, Misses, Takes};
ghost use Rattle.pf_board.specs.Told.{Meets};
ghost use Rattle.pf_board.specs.Views.{first_view};
ghost use Rattle.pf_board.specs.Words.{FitsWord, on_words};
ghost use Rattle.pf_board.specs.Passes.{AreOf, Finds, IsIn, IsFront, but, calls_by, checked, new_keeper, new_pass, new_passes};

use crate::charter::Charter;
use crate::cuts::{Another, Host, Lend, PassTurn, Report};
use crate::handed::Handed;
use crate::issues::{Issues, Names};
use crate::keeper::Keeper;
use crate::pass::Pass;
use crate::plays::{Check, Grab, Issue, Look, Note, Peek, Settle};
use crate::quantum::Quantum;
use crate::rule::{BoardSeat, BoardTable};
use crate::take::Take;
use crate::turn::Turn;
use crate::word::Word;
use atomic_table::{Closed, Table};
use std::alloc::{AllocError, Global};
use std::marker::{Brand, Model, PhantomData};
use std::snapshot::Snapshot;

/// The words that the passes of one history share. No call waits for another.
#[derive(Drop)]
pub struct Board<E, I: Issues<E>> {
    table: BoardTable<E, I, I::Terms>,
    processors: u32,
    alloc: Global,
}

impl<E, I: Issues<E>> Model for Board<E, I> {
    ghost use Rattle.std.specs.Prelude.{◌≡◌, ◌+◌};
    ghost use Rattle.pf_board.specs.Passes.{Boarding};

    ghost Value = { Boarding I.Terms };

    ghost view = { λ b. record { id = b.table.shared.table_id; terms = b.table.shared.key.terms.value; processors = b.table.shared.key.processors; passes = b.table.shared.key.passes } };

    ghost invariant = { λ b. (b.table.shared.table_id.words ≡ 1 + b.processors) × (b.table.shared.key.processors ≡ b.processors) × (b.table.shared.table_id.slots ≡ 0) };
}

impl<E, I: Issues<E>> Board<E, I> {
    /// A board with an empty history, its keeper, and its passes, numbered from 0.
    ///
    /// # Errors
    ///
    /// Where memory is refused.
    pub fn new(
        alloc: Global,
        terms: &I::Terms,
        processors: u32,
        passes: u32,
    ) -> Result<(Board<E, I>, Keeper<E, I>, Vec<Pass<E, I>>), AllocError>
        ensures board { IfOk result (λ r. (r.0.terms ≡ terms.now) × (r.0.processors ≡ processors) × (r.0.passes ≡ passes)) }
        ensures keeper { IfOk result (λ r. r.1 ≡ new_keeper r.0.id terms.now) }
        ensures passes { IfOk result (λ r. r.2.items ≡ new_passes r.0.id terms.now passes) }
    {
        let charter = Charter {
            terms: Snapshot::of(terms),
            processors,
            passes,
        };
        let words = Vec::from_elem(alloc, 0u64, 1 + processors as usize)?;
        let (table, mut seat) = Table::of_words(alloc, words.as_slice(), &charter)?;
        let board = Board {
            table,
            processors,
            alloc,
        };
        let passes = board.make_passes(&mut seat, terms, passes)?;
        let keeper = Keeper {
            seat,
            of: PhantomData,
        };
        Ok((board, keeper, passes))
    }

    /// So many passes, numbered from 0, by the first seat.
    fn make_passes(
        &self,
        first: &mut BoardSeat<E, I::Terms>,
        terms: &I::Terms,
        count: u32,
    ) -> Result<Vec<Pass<E, I>>, AllocError>
        requires board { (first.old.table_id ≡ self.now.id) × (self.now.terms ≡ terms.now) × (count ≤ self.now.passes) }
        requires first { first.old.me ≡ (first_view terms.now 0, []) }
        ensures first { IfOk result (λ v. (first.new.table_id ≡ self.now.id) × (first.new.me ≡ (first_view terms.now count, []))) }
        ensures passes { IfOk result (λ v. v.items ≡ new_passes self.now.id terms.now count) }
    {
        let mut passes = Vec::with_capacity(self.alloc, count as usize)?;
        for number in 0..count {
            passes.push_reserved(self.make_pass(first, terms, number));
        }
        Ok(passes)
    }

    /// The pass of this number, by the first seat.
    fn make_pass(
        &self,
        first: &mut BoardSeat<E, I::Terms>,
        terms: &I::Terms,
        number: u32,
    ) -> Pass<E, I>
        requires board { (first.old.table_id ≡ self.now.id) × (self.now.terms ≡ terms.now) × (number < self.now.passes) }
        requires first { first.old.me ≡ (first_view terms.now number, []) }
        ensures first { (first.new.table_id ≡ self.now.id) × (first.new.me ≡ (first_view terms.now (number + 1), [])) }
        ensures pass { result ≡ new_pass self.now.id terms.now number }
    {
        let seat = self.table.shared.split_seat::<Another>(first);
        Pass {
            seat,
            number,
            of: PhantomData,
        }
    }

    /// How long the history is. The pass then has seen it whole.
    pub fn look(&self, pass: &mut Pass<E, I>) -> u64
        requires { pass.old.board ≡ self.now.id }
        ensures pass { pass.new ≡ record pass.old { seen = pass.new.seen; loads = pass.old.loads ++ (0, result) ∷ [] } }
        ensures found { result ≡ length pass.new.seen }
        ensures grew { IsPrefix pass.old.seen pass.new.seen }
        ensures issued { (q : Quantum) → times q pass.new.taken ≤ times q (issues I.quanta pass.new.seen) }
        ensures front { IsFront I.legal pass.new }
    {
        self.table.shared.load::<Look<I>>(&mut pass.seat, 0)
    }

    /// Permission to append one entry.
    pub fn turn(&self, keeper: &mut Keeper<E, I>) -> Turn<E, I>
        requires board { keeper.old.board ≡ self.now.id }
        requires here { keeper.old.has_turn ≡ true }
        ensures turn { result ≡ record { board = keeper.old.board; whole = keeper.old.seen; empty = keeper.old.empty; left = keeper.old.left } }
        ensures keeper { keeper.new ≡ record keeper.old { has_turn = false; empty = []; left = [] } }
    {
        let seat = self.table.shared.split_seat::<PassTurn>(&mut keeper.seat);
        Turn {
            seat,
            of: PhantomData,
        }
    }

    /// The turn goes to the keeper, which then has seen the whole history.
    fn bring(&self, keeper: &mut Keeper<E, I>, seat: BoardSeat<E, I::Terms>) -> u64
        requires board { (keeper.old.board ≡ self.now.id) × (seat.table_id ≡ self.now.id) }
        requires turn { IsTurn seat.me.0 × (seat.me.1 ≡ []) }
        ensures keeper { keeper.new ≡ record keeper.old { seen = seat.me.0.whole; has_turn = true; empty = seat.me.0.empty; left = seat.me.0.left } }
        ensures count { result ≡ length seat.me.0.whole }
    {
        let shared = &self.table.shared;
        shared.join_seat::<PassTurn>(&mut keeper.seat, seat);
        shared.load::<Settle<I>>(&mut keeper.seat, 0)
    }

    /// Takes the turn back unused.
    pub fn back(&self, keeper: &mut Keeper<E, I>, turn: Turn<E, I>)
        requires { (keeper.old.board ≡ self.now.id) × (turn.board ≡ self.now.id) }
        ensures { keeper.new ≡ record keeper.old { seen = turn.whole; has_turn = true; empty = turn.empty; left = turn.left } }
    {
        let Turn { seat, of: _ } = turn;
        self.bring(keeper, seat);
    }

    /// Enters the entry, by the pass, and gives the number of entries. For a step each word was found empty since the
    /// last quantum was put there, and nothing is left to issue.
    pub fn note(
        &self,
        keeper: &mut Keeper<E, I>,
        pass: &mut Pass<E, I>,
        turn: Turn<E, I>,
        entry: &E,
    ) -> u64
        requires board { (keeper.old.board ≡ self.now.id) × (pass.old.board ≡ self.now.id) × (turn.board ≡ self.now.id) }
        requires room { length turn.whole + 1 < 2 ^ 64 }
        requires legal { I.legal self.now.terms (turn.whole ++ (pass.old.me, entry.now) ∷ []) }
        requires step { is_step I.quanta I.steps entry.now ≡ true → (turn.left ≡ []) × ((p : ℕ) → p < self.now.processors → IsIn turn.empty p) }
        ensures count { result ≡ length turn.whole + 1 }
        ensures pass { pass.new ≡ record pass.old { seen = turn.whole ++ (pass.old.me, entry.now) ∷ []; mine = pass.old.mine ++ entry.now ∷ [] } }
        ensures grew { IsPrefix pass.old.seen turn.whole }
        ensures front { IsFront I.legal pass.new }
        ensures keeper { keeper.new ≡ record keeper.old { seen = turn.whole ++ (pass.old.me, entry.now) ∷ []; has_turn = true; empty = turn.empty; left = turn.left ++ I.quanta entry.now } }
    {
        self.note_as::<Brand>(keeper, pass, turn, entry)
    }

    /// The same. `N` names the entry to the table's rule.
    fn note_as<N: Names<E>>(
        &self,
        keeper: &mut Keeper<E, I>,
        pass: &mut Pass<E, I>,
        turn: Turn<E, I>,
        entry: &E,
    ) -> u64
        requires named { N.entry ≡ entry.now ∷ [] }
        requires board { (keeper.old.board ≡ self.now.id) × (pass.old.board ≡ self.now.id) × (turn.board ≡ self.now.id) }
        requires room { length turn.whole + 1 < 2 ^ 64 }
        requires legal { I.legal self.now.terms (turn.whole ++ (pass.old.me, entry.now) ∷ []) }
        requires step { is_step I.quanta I.steps entry.now ≡ true → (turn.left ≡ []) × ((p : ℕ) → p < self.now.processors → IsIn turn.empty p) }
        ensures count { result ≡ length turn.whole + 1 }
        ensures pass { pass.new ≡ record pass.old { seen = turn.whole ++ (pass.old.me, entry.now) ∷ []; mine = pass.old.mine ++ entry.now ∷ [] } }
        ensures grew { IsPrefix pass.old.seen turn.whole }
        ensures front { IsFront I.legal pass.new }
        ensures keeper { keeper.new ≡ record keeper.old { seen = turn.whole ++ (pass.old.me, entry.now) ∷ []; has_turn = true; empty = turn.empty; left = turn.left ++ I.quanta entry.now } }
    {
        let Turn { seat, of: _ } = turn;
        let shared = &self.table.shared;
        shared.join_seat::<PassTurn>(&mut pass.seat, seat);
        shared.fetch_add::<Note<I, N>>(&mut pass.seat, 0, 1);
        let seat = shared.split_seat::<PassTurn>(&mut pass.seat);
        self.bring(keeper, seat)
    }

    /// The guest lends its hand to the host, which then looks, and gives it back.
    fn visit(&self, guest: &mut BoardSeat<E, I::Terms>, host: &mut BoardSeat<E, I::Terms>)
        requires board { (guest.old.table_id ≡ self.now.id) × (host.old.table_id ≡ self.now.id) }
        requires guest { guest.old.me.0.named ≡ true }
        requires host { host.old.me.0.guests ≡ [] }
        ensures guest { (guest.new.table_id ≡ guest.old.table_id) × (guest.new.me ≡ guest.old.me) }
        ensures host { (host.new.table_id ≡ host.old.table_id) × (host.new.me.1 ≡ host.old.me.1) }
        ensures met { Meets I.legal guest.old.me.0 host.old.me.0 host.new.me.0 }
    {
        let shared = &self.table.shared;
        let hand = shared.split_seat::<Lend>(guest);
        shared.join_seat::<Host>(host, hand);
        shared.load::<Settle<I>>(host, 0);
        let hand = shared.split_seat::<Host>(host);
        shared.join_seat::<Lend>(guest, hand);
    }

    /// Afterwards what `into` has seen begins with what each of the two had seen. Nothing that the one took was taken
    /// by the other.
    pub fn meet(&self, from: &mut Pass<E, I>, into: &mut Pass<E, I>)
        requires { (from.old.board ≡ self.now.id) × (into.old.board ≡ self.now.id) }
        ensures from { from.new ≡ from.old }
        ensures into { into.new ≡ record into.old { seen = into.new.seen } }
        ensures seen { IsPrefix from.old.seen into.new.seen × IsPrefix into.old.seen into.new.seen }
        ensures front { IsFront I.legal into.new }
        ensures apart { AreApartQuanta from.old.taken into.old.taken }
    {
        self.visit(&mut from.seat, &mut into.seat);
    }

    /// What the keeper has seen begins with what the pass has, and the pass's own entries are all that the whole
    /// history has of it. Both are as before.
    pub fn tie(&self, keeper: &mut Keeper<E, I>, pass: &mut Pass<E, I>)
        requires board { (keeper.old.board ≡ self.now.id) × (pass.old.board ≡ self.now.id) }
        requires here { keeper.old.has_turn ≡ true }
        ensures keeper { keeper.new ≡ keeper.old }
        ensures pass { pass.new ≡ pass.old }
        ensures tied { IsPrefix pass.old.seen keeper.old.seen }
        ensures mine { pass.old.mine ≡ calls_by pass.old.me keeper.old.seen }
    {
        self.visit(&mut pass.seat, &mut keeper.seat);
    }

    /// Whether the processor's word is empty.
    fn is_empty(&self, keeper: &mut Keeper<E, I>, processor: u32) -> bool
        requires board { keeper.old.board ≡ self.now.id }
        requires inside { processor < self.now.processors }
        ensures { MatchBool result
            (keeper.new ≡ record keeper.old { loads = keeper.old.loads ++ (1 + processor, 0) ∷ []; empty = keeper.old.empty ++ processor ∷ [] })
            ((found : ℕ) × (found ≢ 0) × (keeper.new ≡ record keeper.old { loads = keeper.old.loads ++ (1 + processor, found) ∷ [] })) }
    {
        let word = processor as usize + 1;
        self.table.shared.load::<Check>(&mut keeper.seat, word) == 0
    }

    /// The lowest processor on which an untaken quantum lies. The words below it are then known to be empty.
    pub fn check(&self, keeper: &mut Keeper<E, I>) -> Option<u32>
        requires board { keeper.old.board ≡ self.now.id }
        requires here { keeper.old.has_turn ≡ true }
        ensures some { IfSome result (λ p. (p < self.now.processors) × Finds p keeper.old keeper.new) }
        ensures none { IfNone result (keeper.new ≡ checked self.now.processors keeper.old) }
    {
        for processor in 0..self.processors {
            if !self.is_empty(keeper, processor) {
                return Some(processor);
            }
        }
        None
    }

    /// Moves the keeper's log of loads to the pass for which they were made.
    pub fn report(&self, keeper: &mut Keeper<E, I>, pass: &mut Pass<E, I>)
        requires { (keeper.old.board ≡ self.now.id) × (pass.old.board ≡ self.now.id) }
        ensures keeper { keeper.new ≡ record keeper.old { loads = [] } }
        ensures pass { pass.new ≡ record pass.old { loads = pass.old.loads ++ keeper.old.loads } }
        ensures front { IsFront I.legal pass.new }
    {
        let shared = &self.table.shared;
        let seat = shared.split_seat::<Report>(&mut keeper.seat);
        shared.join_seat::<Report>(&mut pass.seat, seat);
    }

    /// Puts a quantum onto its processor's word. It is of the last step, and no quantum equal to it was put there
    /// before; the word was found empty since the last one was.
    pub fn issue(&self, keeper: &mut Keeper<E, I>, quantum: Quantum)
        requires board { keeper.old.board ≡ self.now.id }
        requires here { keeper.old.has_turn ≡ true }
        requires inside { quantum.processor < self.now.processors }
        requires fits { FitsWord quantum }
        requires left { 0 < times quantum keeper.old.left }
        requires unissued { times quantum (issues I.quanta keeper.old.seen) ≡ times quantum keeper.old.left }
        requires empty { IsIn keeper.old.empty quantum.processor }
        ensures { keeper.new ≡ record keeper.old { left = quanta_without quantum keeper.old.left; empty = but quantum.processor keeper.old.empty } }
    {
        let word = quantum.processor as usize + 1;
        let bits = Word::encode(&quantum).bits;
        self.table
            .shared
            .store::<Issue>(&mut keeper.seat, word, bits);
    }

    /// What lies on the processor's word.
    fn peek(&self, pass: &mut Pass<E, I>, processor: u32) -> Word
        requires board { pass.old.board ≡ self.now.id }
        requires inside { processor < self.now.processors }
        ensures { pass.new ≡ record pass.old { loads = pass.old.loads ++ (1 + processor, result.bits) ∷ [] } }
    {
        let word = processor as usize + 1;
        Word {
            bits: self.table.shared.load::<Peek>(&mut pass.seat, word),
        }
    }

    /// Whether the processor's word still was `word`, whose quantum the pass then took.
    fn grab(&self, pass: &mut Pass<E, I>, processor: u32, word: Word) -> bool
        requires board { pass.old.board ≡ self.now.id }
        requires inside { processor < self.now.processors }
        requires some { word.bits ≢ 0 }
        ensures { MatchBool result (Grabs processor word.bits pass.old pass.new) (Misses processor word.bits pass.old pass.new) }
    {
        let at = processor as usize + 1;
        let found = self
            .table
            .shared
            .compare_exchange::<Grab>(&mut pass.seat, at, word.bits, 0);
        found == word.bits
    }

    /// Takes the quantum of a processor. It waits for nobody.
    pub fn take(&self, pass: &mut Pass<E, I>, processor: u32) -> Take
        requires { pass.old.board ≡ self.now.id }
        ensures taken { Takes I.legal I.quanta self.now.processors processor pass.old result pass.new }
        ensures grew { IsPrefix pass.old.seen pass.new.seen }
    {
        if processor >= self.processors {
            return Take::NoProcessor;
        }
        let word = self.peek(pass, processor);
        let Some(quantum) = word.decode(processor) else {
            return Take::Empty;
        };
        if !self.grab(pass, processor, word) {
            return Take::Gone;
        }
        self.look(pass);
        Take::Got(quantum)
    }

    /// The quanta that nobody took, by processor. Where all passes are handed in, what was issued is these and what the
    /// passes took.
    ///
    /// # Errors
    ///
    /// Where memory is refused: all comes back untouched.
    pub fn close(
        self,
        keeper: Keeper<E, I>,
        passes: Vec<Pass<E, I>>,
    ) -> Result<Vec<Quantum>, Handed<E, I>>
        requires board { (keeper.board ≡ self.id) × AreOf self.id passes.items }
        requires here { keeper.has_turn ≡ true }
        requires none_left { keeper.left ≡ [] }
        ensures closed { IfOk result (λ left. Closes I.quanta I.steps (I.legal self.terms) self.processors self.passes keeper.seen passes.items left.items) }
        ensures refused { IfErr result (λ h. (h.board ≡ self) × (h.keeper ≡ keeper) × (h.passes.items ≡ passes.items)) }
    {
        let Ok(mut left) = Vec::with_capacity(self.alloc, self.processors as usize) else {
            return Err(Handed {
                board: self,
                keeper,
                passes,
            });
        };
        let Keeper { mut seat, .. } = keeper;
        self.gather(&mut seat, passes);
        let Board {
            table,
            processors,
            ..
        } = self;
        let closed = table.close_with(seat);
        read_words(&closed, processors, &mut left);
        closed.free();
        Ok(left)
    }

    /// The host carries the hands of these passes too.
    fn gather(&self, host: &mut BoardSeat<E, I::Terms>, passes: Vec<Pass<E, I>>)
        requires board { (host.old.table_id ≡ self.now.id) × AreOf self.now.id passes.items }
        ensures host { (host.new.table_id ≡ host.old.table_id) × (host.new.id ≡ host.old.id) }
        ensures hands { host.new.me ≡ (record host.old.me.0 { guests = host.old.me.0.guests ++ hands_in passes.items }, host.old.me.1) }
    {
        let shared = &self.table.shared;
        for pass in passes {
            let Pass { mut seat, .. } = pass;
            let hand = shared.split_seat::<Lend>(&mut seat);
            shared.join_seat::<Host>(host, hand);
        }
    }
}

/// Reads the quanta off the processors' words.
fn read_words(closed: &Closed<(), Global>, processors: u32, left: &mut Vec<Quantum>)
    requires full { IsFull closed.now.words }
    requires len { slots_len closed.now.words ≡ 1 + processors }
    requires words { length (slots_items closed.now.words) ≡ 1 + processors }
    requires room { vec_len left.old + processors ≤ vec_capacity left.old }
    ensures { left.new.items ≡ left.old.items ++ on_words 0 (drop 1 (slots_items closed.now.words)) }
{
    for processor in 0..processors {
        let word = Word {
            bits: closed.word(processor as usize + 1),
        };
        if let Some(quantum) = word.decode(processor) {
            left.push_reserved(quantum);
        }
    }
}
