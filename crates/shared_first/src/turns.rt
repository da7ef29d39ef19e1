/// A thread that waits for the others for so many turns gives up.
pub(crate) const TURNS: u64 = 10_000_000;
