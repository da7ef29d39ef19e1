ghost use Rattle.std.specs.Prelude.{◌≡◌, ◌<◌};
ghost use Rattle.std.specs.Result.{result_err};
ghost use Rattle.std.specs.Option.{ForSome, option_copied};
ghost use Rattle.pf_admit.specs.Member.{IsMember, free_from};
ghost use Rattle.pf_admit.specs.Admission.{join_denial, leave_denial, delay_denial};

use crate::denial::Denial;
use crate::member::Member;
use pf_window::{bit, deadline, group, release};

/// Whether a task of these units may join, for any load, units and cap, all three in 1/h.
///
/// # Errors
///
/// `OverCapacity` where the load and the units together are above the cap.
pub fn may_join(load: u64, units: u64, cap: u64) -> Result<(), Denial>
    ensures { result_err result ≡ join_denial load units cap }
{
    match load.checked_add(units) {
        Some(sum) if sum <= cap => Ok(()),
        _ => Err(Denial::OverCapacity),
    }
}

/// Whether a task may leave in the slot. A member's `done` must be below 2^24, its `shift` and `last` below 2^40.
///
/// # Errors
///
/// `NotInside` where there is no such member, and `TooEarly` where the slot is before the one in which its last subtask
/// lets it go.
pub fn may_leave(slot: u64, member: Option<&Member>) -> Result<(), Denial>
    requires { ForSome member (λ m. IsMember m.now) }
    ensures { result_err result ≡ leave_denial slot (option_copied member.entry) }
{
    let Some(member) = member else {
        return Err(Denial::NotInside);
    };
    if member.done != 0 && slot < due_of_last(member) {
        return Err(Denial::TooEarly);
    }
    Ok(())
}

/// Whether a task's next subtask may be delayed in the slot. A member's `done` must be below 2^24, its `shift` and `last`
/// below 2^40.
///
/// # Errors
///
/// `NotInside` where there is no such member, and `Released` where the subtask's release is below the slot.
pub fn may_delay(slot: u64, member: Option<&Member>) -> Result<(), Denial>
    requires { ForSome member (λ m. IsMember m.now) }
    ensures { result_err result ≡ delay_denial slot (option_copied member.entry) }
{
    let Some(member) = member else {
        return Err(Denial::NotInside);
    };
    let next = member.done as u32 + 1;
    if release(member.weight, next) + member.shift < slot {
        return Err(Denial::Released);
    }
    Ok(())
}

/// The first slot in which a member that has run may leave.
fn due_of_last(member: &Member) -> u64
    requires member { IsMember member.now }
    requires ran { 0 < member.now.done }
    ensures { result ≡ free_from member.now }
{
    let last = member.done as u32;
    let due = if member.weight.is_heavy() {
        group(member.weight, last)
    } else {
        deadline(member.weight, last)
    };
    due + member.last + bit(member.weight, last)
}
