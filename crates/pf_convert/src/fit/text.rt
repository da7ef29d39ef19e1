ghost use Rattle.std.specs.Prelude.{◌≡◌, ◌++◌, ◌≤◌, All, OnOk, length};
ghost use Rattle.pf_weight.specs.declared.task.TheConstants.{LARGEST_TASK};
ghost use Rattle.pf_convert.specs.Slots.{IsTimed};
ghost use Rattle.pf_convert.specs.Fit.Shown.{IsShown};
ghost use Rattle.pf_convert.specs.Fit.Text.{margins_text, plan_text, promise_text, shown_text};

use crate::fit::ground::push_ground;
use crate::fit::headline::{push_asked, push_choice, push_verdict};
use crate::fit::next_step::push_next;
use crate::fit::notes::{push_drift, push_limits, push_meaning, push_theorem};
use crate::fit::shown::Shown;
use crate::fit::table::push_table;
use std::alloc::{AllocError, Global};

/// Adds what is told of a plan and its margins.
///
/// # Errors
///
/// Where memory is refused: a front of it was added.
#[tactic(auto, unfolding(crate::specs::Fit::Text::shown_text))]
pub fn push_shown_text(
    alloc: Global,
    text: &mut Vec<u8>,
    shown: &Shown<'_, '_>,
) -> Result<(), AllocError>
    requires shown { IsShown shown.now }
    requires timed { All (λ t. IsTimed t.times) shown.now.listed.now }
    requires few { length shown.now.listed.now ≤ LARGEST_TASK }
    ensures { OnOk result (text.new.items ≡ text.old.items ++ shown_text shown.now) }
{
    push_plan_text(alloc, text, shown)?;
    push_margins_text(alloc, text, shown)
}

/// Adds what is told of the plan.
fn push_plan_text(
    alloc: Global,
    text: &mut Vec<u8>,
    shown: &Shown<'_, '_>,
) -> Result<(), AllocError>
    requires shown { IsShown shown.now }
    requires timed { All (λ t. IsTimed t.times) shown.now.listed.now }
    requires few { length shown.now.listed.now ≤ LARGEST_TASK }
    ensures { OnOk result (text.new.items ≡ text.old.items ++ plan_text shown.now) }
{
    push_verdict(text, shown)?;
    push_asked(alloc, text, shown)?;
    push_choice(alloc, text, shown)?;
    push_table(alloc, text, shown)
}

/// Adds what is told of its margins.
fn push_margins_text(
    alloc: Global,
    text: &mut Vec<u8>,
    shown: &Shown<'_, '_>,
) -> Result<(), AllocError>
    requires { IsShown shown.now }
    ensures { OnOk result (text.new.items ≡ text.old.items ++ margins_text shown.now) }
{
    push_meaning(alloc, text, shown)?;
    push_limits(alloc, text, shown)?;
    push_promise(alloc, text, shown)?;
    push_next(text, shown)
}

/// Adds what is promised of a plan that fits.
fn push_promise(alloc: Global, text: &mut Vec<u8>, shown: &Shown<'_, '_>) -> Result<(), AllocError>
    requires { IsShown shown.now }
    ensures { OnOk result (text.new.items ≡ text.old.items ++ promise_text shown.now) }
{
    if !shown.is_fit() {
        return Ok(());
    }
    push_theorem(alloc, text, shown.terms.arrivals)?;
    push_ground(alloc, text, shown)?;
    push_drift(alloc, text, shown)
}
