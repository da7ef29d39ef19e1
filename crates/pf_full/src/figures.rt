ghost use Rattle.std.specs.Prelude.{◌≡◌, IfOk};
ghost use Rattle.serde_json.specs.View.{view};
ghost use Rattle.pf_full.specs.Full.{figures_data, greatest_data, least_data};

use pf_report::elements::Elements;
use pf_tally::extremes::Extremes;
use pf_tally::figures::Figures;
use serde_json::{Value, json};
use std::alloc::{AllocError, Global};
use std::marker::Model;

/// The least, or null where there is none.
fn least(extremes: Option<Extremes>) -> Value
    ensures { view result ≡ least_data extremes }
{
    match extremes {
        Some(extremes) => Value::from(extremes.least),
        None => Value::Null,
    }
}

/// The greatest, or null where there is none.
fn greatest(extremes: Option<Extremes>) -> Value
    ensures { view result ≡ greatest_data extremes }
{
    match extremes {
        Some(extremes) => Value::from(extremes.greatest),
        None => Value::Null,
    }
}

/// The figures of a task as an object.
fn figures_value(alloc: Global, figures: Figures) -> Result<Value, AllocError>
    ensures { IfOk result (λ v. view v ≡ figures_data figures) }
{
    json!(in alloc; {
        "cost": figures.cost,
        "jobs": figures.jobs,
        "lag_max": figures.lag.greatest,
        "lag_min": figures.lag.least,
        "migrations": figures.migrations,
        "missed": figures.missed,
        "period": figures.period,
        "preemptions": figures.preemptions,
        "quanta": figures.quanta,
        "response_max": greatest(figures.response),
        "response_min": least(figures.response),
        "tardiness_max": figures.tardiness,
        "task": figures.task
    })
}

/// The figures of tasks, by their number.
#[derive(Drop)]
pub struct FigureRows {
    figures: Vec<Figures>,
}

impl Model for FigureRows {
    ghost use Rattle.std.specs.Prelude.{List};
    ghost use Rattle.pf_tally.specs.declared.figures.Figures.{Figures};

    ghost Value = { List Figures };

    ghost view = { λ r. r.figures.items };
}

impl FigureRows {
    ghost use Rattle.std.specs.Prelude.{◌≡◌, ◌∷◌, ◌+◌, ◌<◌, length, drop};

    /// These.
    pub fn of(figures: Vec<Figures>) -> Self
        ensures { result ≡ figures.items }
    {
        FigureRows { figures }
    }

    /// The one at a place.
    fn get(&self, at: u64) -> Figures
        requires { at < length self.now }
        ensures { drop at self.now ≡ result ∷ drop (at + 1) self.now }
    {
        self.figures[at as usize]
    }

    /// How many there are.
    fn len(&self) -> u64
        ensures { result ≡ length self.now }
    {
        self.figures.len() as u64
    }
}

impl Elements for FigureRows {
    ghost use Rattle.std.specs.Prelude.{length, drop, map};
    ghost use Rattle.pf_full.specs.Full.{figures_data};

    ghost count = { λ r. length r };

    ghost rest = { λ r at. map figures_data (drop at r) };

    fn count(&self) -> u64 {
        self.len()
    }

    fn element(&self, alloc: Global, at: u64) -> Result<Value, AllocError> {
        figures_value(alloc, self.get(at))
    }
}
