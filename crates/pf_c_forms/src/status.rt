//! What a call answers C. From 10 to 33 these are the numbers of the table of refusals; those of the calls begin at 64.

/// The call did what it says.
pub const OK: u32 = 0;

/// No slot is left below the horizon.
pub const AT_HORIZON: u32 = 30;

/// A strict change would leave a denial.
pub const WOULD_DENY: u32 = 31;

/// Settings out of their limits.
pub const BAD_SETTINGS: u32 = 33;

/// The handle has no desk.
pub const NOT_OPEN: u32 = 64;

/// The handle has a desk already.
pub const ALREADY_OPEN: u32 = 65;

/// Memory was refused.
pub const NO_MEMORY: u32 = 66;

/// A kind, of an event or a change or a text, that is none, or a number that tells nothing.
pub const UNKNOWN_KIND: u32 = 67;

/// A slot that was not stepped, or a range of slots that cannot be shown.
pub const OUT_OF_RANGE: u32 = 68;

/// The caller's room is too short.
pub const TOO_SHORT: u32 = 69;

/// A record that is none of a script's.
pub const BAD_RECORD: u32 = 70;

/// Another caller is at the shared desk, or nothing can be read just now: nothing was done.
pub const BUSY: u32 = 71;

/// A quantum lies untaken: no step was taken.
pub const PENDING: u32 = 72;

/// There is no quantum to take.
pub const NOTHING: u32 = 73;

/// The slot is not stepped yet: nothing was done.
pub const NOT_YET: u32 = 74;

/// Each place of a caller, or of a reader, is given.
pub const NO_PLACE: u32 = 75;
