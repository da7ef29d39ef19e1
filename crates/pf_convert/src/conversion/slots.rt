use crate::list::listed::Listed;
use crate::plan_fault::PlanFault;
use crate::quantum::Quantum;
use crate::slotted::Slotted;
use crate::words::arrivals::Arrivals;
use std::alloc::{AllocError, Global};

/// The tasks of a list in slots of a quantum, and the faults of those that have none.
#[derive(Drop)]
pub struct Slots {
    pub tasks: Vec<Slotted>,
    pub faults: Vec<PlanFault>,
}

impl Slots {
    ghost use Rattle.std.specs.Prelude.{◌≡◌, ◌≤◌, ◌+◌, ◌++◌, All, IfOk, OnOk, length};
    ghost use Rattle.pf_convert.specs.Slots.{IsQuantum, IsSlotted, IsTimed, slots_or_fault};
    ghost use Rattle.pf_convert.specs.Conversion.Slots.{fault_of, slot_faults, slots_given, slots_in};

    /// These tasks in slots of a quantum, where their jobs arrive so.
    ///
    /// # Errors
    ///
    /// Where memory is refused.
    pub fn of(
        alloc: Global,
        quantum: Quantum,
        arrivals: Arrivals,
        tasks: &[Listed],
    ) -> Result<Slots, AllocError>
        requires quantum { IsQuantum quantum }
        requires timed { All (λ t. IsTimed t.times) tasks.now }
        ensures tasks { IfOk result (λ slots. slots.tasks.items ≡ slots_in quantum arrivals tasks.now) }
        ensures faults { IfOk result (λ slots. slots.faults.items ≡ slot_faults quantum arrivals tasks.now) }
        ensures slotted { IfOk result (λ slots. All IsSlotted slots.tasks.items) }
        ensures few { IfOk result (λ slots. length slots.tasks.items ≤ length tasks.now) }
    {
        let mut slots = Slots {
            tasks: Vec::new(alloc),
            faults: Vec::new(alloc),
        };
        for task in tasks {
            slots.note(quantum, arrivals, task)?;
        }
        Ok(slots)
    }

    /// Adds a task in slots, or its fault.
    fn note(
        &mut self,
        quantum: Quantum,
        arrivals: Arrivals,
        task: &Listed,
    ) -> Result<(), AllocError>
        requires quantum { IsQuantum quantum }
        requires timed { IsTimed task.now.times }
        ensures tasks { OnOk result (self.new.tasks.items ≡ self.old.tasks.items ++ slots_given (slots_or_fault quantum arrivals task.now.times)) }
        ensures faults { OnOk result (self.new.faults.items ≡ self.old.faults.items ++ fault_of task.now (slots_or_fault quantum arrivals task.now.times)) }
        ensures slotted { OnOk result (All IsSlotted self.old.tasks.items → All IsSlotted self.new.tasks.items) }
        ensures few { OnOk result (length self.new.tasks.items ≤ length self.old.tasks.items + 1) }
    {
        match task.times.in_slots(quantum, arrivals) {
            Ok(slots) => {
                self.tasks.push(slots)?;
            }
            Err(fault) => {
                self.faults.push(PlanFault::Task {
                    line: task.line,
                    times: task.times,
                    fault,
                })?;
            }
        }
        Ok(())
    }
}
