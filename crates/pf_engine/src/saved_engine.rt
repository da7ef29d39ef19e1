ghost use Rattle.std.specs.Prelude.{◌≡◌, ◌*◌, IfOk, length};
ghost use Rattle.pf_order.specs.Counts.{Compares};
ghost use Rattle.pf_heap.specs.Digits.{digits};

use crate::agenda::put_next;
use crate::engine::Engine;
use crate::roster::Roster;
use crate::saved_task::SavedTask;
use crate::state::State;
use pf_calendar::calendar::Calendar;
use pf_order::meter::Meter;
use pf_scenario::settings::Settings;
use std::alloc::AllocError;
use std::marker::Model;

/// What an engine keeps, in 40 bytes for each task inside. Its calendar is not saved: it is made anew from the tasks.
pub struct SavedEngine {
    settings: Settings,
    slots: u64,
    load: u64,
    count: u32,
    /// In the order of their joins.
    tasks: Vec<SavedTask>,
}

// A call of its own, so that who drops a saved engine sees none of its parts.
impl Drop for SavedEngine {
    fn drop(self) {
        let SavedEngine {
            settings: _,
            slots: _,
            load: _,
            count: _,
            tasks: _,
        } = self;
    }
}

impl Model for SavedEngine {
    ghost use Rattle.pf_engine.specs.Fits.{Kept};

    ghost Value = { Kept };

    ghost use Rattle.pf_engine.specs.Saved.{kept_of_saved};
    ghost use Rattle.pf_engine.specs.Engines.{IsEngine};

    ghost view = { λ e. kept_of_saved e.settings e.slots e.tasks.items e.load e.count };

    ghost invariant = { λ e. IsEngine (kept_of_saved e.settings e.slots e.tasks.items e.load e.count) };
}

impl SavedEngine {
    /// What this engine's state keeps.
    ///
    /// # Errors
    ///
    /// Where memory is refused.
    pub(crate) fn of(state: &State) -> Result<Self, AllocError>
        ensures { IfOk result (λ saved. saved ≡ state.now.kept) }
    {
        Ok(SavedEngine {
            settings: state.settings,
            slots: state.slots,
            load: state.load,
            count: state.count,
            tasks: state.tasks.save()?,
        })
    }

    /// The number of slots that the engine took, which is the slot that comes next.
    pub fn now(&self) -> u64
        ensures { result ≡ self.now.now }
    {
        self.slots
    }

    /// An engine that keeps the same. Counts no slot, and for n tasks inside at most n times as many comparisons as n has
    /// binary digits.
    ///
    /// # Errors
    ///
    /// Where memory is refused.
    pub fn engine(&self, meter: &mut Meter) -> Result<Engine, AllocError>
        ensures engine { IfOk result (λ e. e ≡ self.now) }
        ensures comparisons { Compares (length self.now.tasks * digits (length self.now.tasks)) meter.old meter.new }
    {
        let alloc = *self.tasks.allocator();
        let mut tasks = Roster::new(alloc);
        let mut calendar = Calendar::new(alloc)?;
        tasks.reserve(self.tasks.len())?;
        calendar.reserve_room(self.tasks.len())?;
        for saved in &self.tasks {
            let member = saved.member(self.settings.base());
            tasks.reserve_task(saved.task)?;
            calendar.reserve_task(saved.task)?;
            tasks.push(saved.task, member);
            put_next(&mut calendar, meter, saved.task, &member, self.slots);
        }
        Ok(Engine {
            state: State {
                settings: self.settings,
                slots: self.slots,
                tasks,
                load: self.load,
                count: self.count,
                calendar,
            },
        })
    }
}
