ghost use Rattle.std.specs.Prelude.{◌≡◌, ◌+◌, ◌*◌, ◌≤◌, ◌++◌, [], IfOk, length, vec_len, vec_capacity};
ghost use Rattle.std.specs.Result.{result_err};
ghost use Rattle.pf_order.specs.Counts.{Compares};
ghost use Rattle.pf_heap.specs.Digits.{digits};
ghost use Rattle.pf_engine.specs.Fits.{kept_after, CanTake};
ghost use Rattle.pf_engine.specs.Kept.{kept_after_events, denials_of_slot};
ghost use Rattle.pf_engine.specs.Points.{IsAt};
ghost use Rattle.pf_engine.specs.Taking.{Advances};
ghost use Rattle.pf_engine.specs.Keeping.{CanTakeNext, TakesEvent, HasRoomFor};
ghost use Rattle.pf_engine.specs.Rooms.{IsReadyFor};
ghost use Rattle.pf_engine.specs.Comparisons.{most_comparisons};

use crate::agenda::{choose, put_next, reserve_joins, run};
use crate::outcome::Outcome;
use crate::room::Room;
use crate::roster::Roster;
use pf_admit::denial::Denial;
use pf_admit::member::Member;
use pf_admit::rules::{may_delay, may_join, may_leave};
use pf_calendar::calendar::Calendar;
use pf_order::meter::Meter;
use pf_run::denied::Denied;
use pf_scenario::event::{Event, Numbered};
use pf_scenario::settings::Settings;
use pf_weight::task::number_of;
use pf_weight::weight::Weight;
use std::alloc::{AllocError, Global};
use std::marker::Model;

/// What an engine keeps, with its room for more.
#[derive(Drop)]
pub(crate) struct State {
    /// What its scenarios are set in.
    pub(crate) settings: Settings,
    /// The number of slots that were taken.
    pub(crate) slots: u64,
    /// The tasks inside.
    pub(crate) tasks: Roster,
    /// The sum of their units, in 1/h.
    pub(crate) load: u64,
    /// How many processors are in use.
    pub(crate) count: u32,
    /// The keys of the next subtasks of the tasks inside.
    pub(crate) calendar: Calendar,
}

impl Model for State {
    ghost use Rattle.pf_engine.specs.Keeping.{Keeping};

    ghost Value = { Keeping };

    ghost use Rattle.pf_engine.specs.States.{keeping_of, IsSound};

    ghost view = { keeping_of };

    ghost invariant = { IsSound };
}

impl State {
    /// Before any slot.
    ///
    /// # Errors
    ///
    /// Where memory is refused.
    #[tactic(auto, unfolding(crate::specs::Fits::kept_after, pf_run::specs::Inside::inside, pf_run::specs::Inside::load_of, pf_run::specs::Inside::count_of))]
    pub(crate) fn new(alloc: Global, settings: Settings) -> Result<Self, AllocError>
        ensures { IfOk result (λ s. s.kept ≡ kept_after settings [] []) }
    {
        Ok(State {
            settings,
            slots: 0,
            tasks: Roster::new(alloc),
            load: 0,
            count: settings.processors(),
            calendar: Calendar::new(alloc)?,
        })
    }

    /// The same state.
    ///
    /// # Errors
    ///
    /// Where memory is refused.
    pub(crate) fn copy(&self) -> Result<Self, AllocError>
        ensures { IfOk result (λ s. s.kept ≡ self.now.kept) }
    {
        Ok(State {
            settings: self.settings,
            slots: self.slots,
            tasks: self.tasks.copy()?,
            load: self.load,
            count: self.count,
            calendar: self.calendar.copy()?,
        })
    }

    /// Makes room for a slot of these events. What is kept stays as it was.
    ///
    /// # Errors
    ///
    /// Where memory is refused.
    pub(crate) fn prepare(&mut self, events: &[Numbered]) -> Result<Room, AllocError>
        requires { CanTake self.old.kept events.now }
        ensures kept { self.new.kept ≡ self.old.kept }
        ensures ready { IfOk result (IsReadyFor self.new events.now) }
    {
        let more = events.len();
        let picks = self.settings.processors() as usize;
        let room = Room::new(self.tasks.allocator(), more, picks)?;
        self.tasks.reserve(more)?;
        self.tasks.reserve_joins(events)?;
        self.calendar.reserve_room(more)?;
        reserve_joins(&mut self.calendar, events)?;
        Ok(room)
    }

    /// Takes a slot of these events.
    pub(crate) fn advance(&mut self, meter: &mut Meter, events: &[Numbered], room: Room) -> Outcome
        requires can { CanTake self.old.kept events.now }
        requires ready { IsReadyFor self.old events.now room }
        ensures advances { Advances self.old.kept events.now result self.new.kept }
        ensures comparisons { Compares (most_comparisons result.count (length self.old.kept.tasks) (length events.now)) meter.old meter.new }
    {
        let Room {
            mut denials,
            mut picks,
        } = room;
        self.take_events(meter, events, &mut denials);
        self.calendar.advance(meter, self.slots);
        choose(&mut self.calendar, meter, self.count as usize, &mut picks);
        run(
            &mut self.tasks,
            &mut self.calendar,
            meter,
            self.slots,
            &picks,
        );
        self.slots += 1;
        Outcome {
            picks,
            denials,
            count: self.count,
        }
    }

    /// Takes one event.
    fn take_event(&mut self, meter: &mut Meter, event: Event) -> Result<(), Denial>
        requires { CanTakeNext self.old event }
        ensures takes { TakesEvent self.old event (result_err result) self.new }
        ensures comparisons { Compares (3 * digits (length self.old.kept.tasks + 1)) meter.old meter.new }
    {
        match event {
            Event::Join {
                slot,
                task,
                cost,
                period,
                early,
            } => self.join(meter, slot, number_of(task), cost, period, early),
            Event::Leave { slot, task } => self.leave(meter, slot, number_of(task)),
            Event::Delay { slot, task, by } => self.delay(meter, slot, number_of(task), by),
            Event::Limit { count, .. } => {
                self.count = count as u32;
                Ok(())
            }
        }
    }

    /// Takes a join.
    fn join(
        &mut self,
        meter: &mut Meter,
        slot: u64,
        task: u32,
        cost: u64,
        period: u64,
        early: u64,
    ) -> Result<(), Denial>
        requires { CanTakeNext self.old (Event.Join slot task cost period early) }
        ensures takes { TakesEvent self.old (Event.Join slot task cost period early) (result_err result) self.new }
        ensures comparisons { Compares (3 * digits (length self.old.kept.tasks + 1)) meter.old meter.new }
    {
        let Ok(weight) = Weight::new(self.settings.base(), cost, period) else {
            unreachable!()
        };
        may_join(self.load, weight.units(), self.settings.cap())?;
        self.load += weight.units();
        let member = Member {
            weight,
            joined: slot,
            early,
            done: 0,
            shift: slot,
            last: slot,
        };
        self.tasks.push(task, member);
        put_next(&mut self.calendar, meter, task, &member, self.slots);
        Ok(())
    }

    /// Takes a leave.
    fn leave(&mut self, meter: &mut Meter, slot: u64, task: u32) -> Result<(), Denial>
        requires { CanTakeNext self.old (Event.Leave slot task) }
        ensures takes { TakesEvent self.old (Event.Leave slot task) (result_err result) self.new }
        ensures comparisons { Compares (3 * digits (length self.old.kept.tasks + 1)) meter.old meter.new }
    {
        let member = self.tasks.get(task).copied();
        may_leave(slot, member.as_ref())?;
        let Some(member) = member else { unreachable!() };
        self.load -= member.weight.units();
        self.tasks.remove(task);
        let _ = self.calendar.take_out(meter, task);
        Ok(())
    }

    /// Takes a delay.
    fn delay(&mut self, meter: &mut Meter, slot: u64, task: u32, by: u64) -> Result<(), Denial>
        requires { CanTakeNext self.old (Event.Delay slot task by) }
        ensures takes { TakesEvent self.old (Event.Delay slot task by) (result_err result) self.new }
        ensures comparisons { Compares (3 * digits (length self.old.kept.tasks + 1)) meter.old meter.new }
    {
        may_delay(slot, self.tasks.get(task))?;
        if let Some(member) = self.tasks.delay(task, by) {
            let _ = self.calendar.take_out(meter, task);
            put_next(&mut self.calendar, meter, task, &member, self.slots);
        }
        Ok(())
    }

    /// Takes the events of a slot and adds those that are denied.
    fn take_events(&mut self, meter: &mut Meter, events: &[Numbered], denials: &mut Vec<Denied>)
        requires at { IsAt self.old.kept events.now }
        requires room { HasRoomFor self.old events.now }
        requires memory { vec_len denials.old + length events.now ≤ vec_capacity denials.old }
        ensures kept { self.new.kept ≡ kept_after_events self.old.kept events.now }
        ensures denials { denials.new.items ≡ denials.old.items ++ denials_of_slot self.old.kept events.now }
        ensures comparisons { Compares (length events.now * (3 * digits (length self.old.kept.tasks + length events.now))) meter.old meter.new }
    {
        let slot = self.slots;
        for x in events {
            if let Err(denial) = self.take_event(meter, x.event) {
                denials.push_reserved(Denied {
                    slot,
                    id: x.id,
                    denial,
                });
            }
        }
    }
}
