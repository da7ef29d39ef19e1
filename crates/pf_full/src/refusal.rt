ghost use Rattle.std.specs.Prelude.{◌≡◌, IfOk};
ghost use Rattle.serde_json.specs.View.{view};
ghost use Rattle.pf_full.specs.Full.{refusal_data};

use pf_desk::reply::Fault;
use pf_report::elements::Elements;
use pf_run_notes::refusals::{fault_code, fault_name};
use serde_json::{Value, json};
use std::alloc::{AllocError, Global};
use std::marker::Model;

/// A record of a script of which a command was refused.
#[derive(Clone, Copy)]
pub struct Refusal {
    /// The record's number, from 1; the heading counts.
    pub record: u64,
    /// Why the first of its commands that was refused was so.
    pub fault: Fault,
}

/// A refusal as an object.
fn refusal_value(alloc: Global, refusal: Refusal) -> Result<Value, AllocError>
    ensures { IfOk result (λ v. view v ≡ refusal_data refusal) }
{
    json!(in alloc; {
        "code": fault_code(refusal.fault),
        "reason": fault_name(refusal.fault),
        "record": refusal.record
    })
}

/// Refused records, by their number.
#[derive(Drop)]
pub struct RefusalRows {
    refusals: Vec<Refusal>,
}

impl Model for RefusalRows {
    ghost use Rattle.std.specs.Prelude.{List};
    ghost use Rattle.pf_full.specs.declared.refusal.Refusal.{Refusal};

    ghost Value = { List Refusal };

    ghost view = { λ r. r.refusals.items };
}

impl RefusalRows {
    ghost use Rattle.std.specs.Prelude.{◌≡◌, ◌∷◌, ◌+◌, ◌<◌, length, drop};

    /// These.
    pub fn of(refusals: Vec<Refusal>) -> Self
        ensures { result ≡ refusals.items }
    {
        RefusalRows { refusals }
    }

    /// The one at a place.
    fn get(&self, at: u64) -> Refusal
        requires { at < length self.now }
        ensures { drop at self.now ≡ result ∷ drop (at + 1) self.now }
    {
        self.refusals[at as usize]
    }

    /// How many there are.
    fn len(&self) -> u64
        ensures { result ≡ length self.now }
    {
        self.refusals.len() as u64
    }
}

impl Elements for RefusalRows {
    ghost use Rattle.std.specs.Prelude.{length, drop, map};
    ghost use Rattle.pf_full.specs.Full.{refusal_data};

    ghost count = { λ r. length r };

    ghost rest = { λ r at. map refusal_data (drop at r) };

    fn count(&self) -> u64 {
        self.len()
    }

    fn element(&self, alloc: Global, at: u64) -> Result<Value, AllocError> {
        refusal_value(alloc, self.get(at))
    }
}
