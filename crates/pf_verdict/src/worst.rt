ghost use Rattle.std.specs.Prelude.{◌≡◌, ◌≤◌, All, IfSome};
ghost use Rattle.pf_verdict.specs.Worst.{exceeds, lag_of, response_of, worse, worst_lag, worst_response};

use pf_tally::figures::Figures;

/// A value of a task in its period.
#[derive(Clone, Copy)]
pub struct Rated {
    /// The task's number.
    pub task: u32,
    /// The value, in slots, or a lag times the period.
    pub value: i64,
    /// The task's period, in slots.
    pub period: u64,
}

/// Whether x / p is above y / q.
fn exceeds(x: i64, p: u64, y: i64, q: u64) -> bool
    ensures { result ≡ exceeds x p y q }
{
    let ours = u128::from(x.unsigned_abs()) * u128::from(q);
    let theirs = u128::from(y.unsigned_abs()) * u128::from(p);
    if x >= 0 {
        y < 0 || theirs < ours
    } else {
        y < 0 && ours < theirs
    }
}

/// The one with the greater part of its period, the first where they are equal.
fn worse(worst: Option<Rated>, next: Rated) -> Option<Rated>
    ensures { result ≡ worse worst next }
{
    match worst {
        Some(found) => {
            if exceeds(next.value, next.period, found.value, found.period) {
                Some(next)
            } else {
                Some(found)
            }
        }
        None => Some(next),
    }
}

/// The task's greatest response, where it has a job.
fn response_of(figures: Figures) -> Option<Rated>
    ensures { result ≡ response_of figures }
{
    let response = figures.response?;
    Some(Rated {
        task: figures.task,
        value: response.greatest,
        period: figures.period,
    })
}

/// The task with the greatest response as a part of its period, of those with a job; the first of several.
pub fn worst_response(figures: &[Figures]) -> Option<Rated>
    ensures { result ≡ worst_response figures.now }
{
    let mut worst = None;
    for task in figures {
        if let Some(response) = response_of(*task) {
            worst = worse(worst, response);
        }
    }
    worst
}

/// The task with the greatest lag, the first of several.
pub fn worst_lag(figures: &[Figures]) -> Option<Rated>
    ensures value { result ≡ worst_lag figures.now }
    ensures period { All (λ f. 1 ≤ f.period) figures.now → IfSome result (λ w. 1 ≤ w.period) }
{
    let mut worst = None;
    for task in figures {
        let lag = Rated {
            task: task.task,
            value: task.lag.greatest,
            period: task.period,
        };
        worst = worse(worst, lag);
    }
    worst
}
