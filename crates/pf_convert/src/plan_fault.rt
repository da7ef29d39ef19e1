use crate::slot_fault::SlotFault;
use crate::timed::Timed;

/// Why a quantum gives no plan.
#[derive(Clone, Copy)]
pub enum PlanFault {
    /// A task has no slots.
    Task {
        /// The line on which its record begins.
        line: u64,
        /// Its times.
        times: Timed,
        /// Why it has none.
        fault: SlotFault,
    },
    /// There is no base that holds all tasks.
    NoBase,
}
