/// Why a task in time is none in slots of a quantum, in the order in which the tests are made.
#[derive(Clone, Copy)]
pub enum SlotFault {
    /// The period would be 0 slots.
    DueTooSoon,
    /// A job would take more quanta than its period has slots.
    CostAbovePeriod {
        /// The quanta of a job.
        cost: u64,
        /// The slots of a period.
        period: u64,
    },
    /// The first job would come at the horizon of a wide desk or after it.
    JoinBeyondHorizon {
        /// The slot of the join.
        join: u64,
    },
    /// A quantum might run earlier than a desk allows.
    TooEarly {
        /// How many slots before its window.
        early: u64,
    },
    /// Jobs arrive at any time, and a quantum might run before its job arrives.
    BeforeArrival,
}
