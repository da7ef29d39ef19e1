ghost use Rattle.std.specs.Prelude.{◌≡◌, ◌≤◌, ◌<◌, ◌^◌, [], IfOk, vec_capacity};
ghost use Rattle.pf_share.specs.Opening.{new_viewers};

use crate::press::Press;
use crate::publisher::Publisher;
use crate::shown::Shown;
use crate::stamp::Stamp;
use crate::tells::Tells;
use crate::viewer::Viewer;
use pf_desk::desk::Desk;
use std::alloc::{AllocError, Global};
use std::sync::{Arc, Wait};

/// What was wanting for a desk to be opened.
pub(crate) enum Scarcity {
    NoViewer,
    NoMemory,
}

impl From<AllocError> for Scarcity {
    ghost use Rattle.std.specs.Prelude.{◌≡◌};
    ghost use Rattle.pf_share.specs.declared.publication.Scarcity.TheVariants.{NoMemory};

    ghost from_gives = { λ _ want. want ≡ NoMemory };

    fn from(_error: AllocError) -> Self {
        Scarcity::NoMemory
    }
}

/// A desk tells its history.
struct OfDesk;

impl Tells<Desk> for OfDesk {
    ghost story = { λ d. record { settings = d.state.plan.settings; entries = d.history } };
}

/// What shows a desk that was just opened: its book, the number of its history, what shows that, and who reads it.
#[derive(Drop)]
pub(crate) struct Publication<H: Wait + Drop> {
    pub(crate) press: Press,
    pub(crate) stamp: Stamp,
    pub(crate) publisher: Publisher<H>,
    pub(crate) viewers: Vec<Viewer>,
}

impl<H: Wait + Drop> Publication<H> {
    /// The empty history of a desk, shown to so many viewers, who read nothing yet.
    ///
    /// # Errors
    ///
    /// `NoViewer` where the readers' table gives no place; `NoMemory` where memory is refused.
    pub(crate) fn of(rt: H, alloc: Global, desk: &Desk, readers: usize) -> Result<Self, Scarcity>
        requires empty { desk.now.history ≡ [] }
        requires readers { (0 < readers) × (readers < 2 ^ 32) }
        ensures stamp { IfOk result (λ p. p.stamp ≡ record { origin = record { book = p.press; settings = desk.now.state.plan.settings }; history = desk.now.history }) }
        ensures shown { IfOk result (λ p. p.publisher ≡ p.stamp) }
        ensures viewers { IfOk result (λ p. p.viewers.items ≡ new_viewers p.stamp.origin readers) }
    {
        let mut press = Press::new();
        let shown = opening(alloc, &mut press, desk)?;
        let stamp = shown.stamp().again();
        let mut publisher = Publisher::new(rt, alloc, shown, readers)?;
        let room = Vec::with_capacity(alloc, readers)?;
        match make_viewers(&mut publisher, &stamp, room, readers) {
            Ok(viewers) => Ok(Publication {
                press,
                stamp,
                publisher,
                viewers,
            }),
            Err(_) => Err(Scarcity::NoViewer),
        }
    }
}

/// The snapshot of a desk, with a number for its history.
fn opening(alloc: Global, press: &mut Press, desk: &Desk) -> Result<Shown, AllocError>
    ensures press { press.new ≡ press.old }
    ensures shown { IfOk result (λ s. s ≡ record { origin = record { book = press.old; settings = desk.now.state.plan.settings }; history = desk.now.history }) }
{
    let stamp = press.stamp::<Desk, OfDesk>(desk).ok_or(AllocError)?;
    let snapshot = Arc::new(alloc, desk.snapshot()?)?;
    Ok(Shown::new(snapshot, stamp))
}

/// So many viewers, who read nothing yet, for whom there is room. `stamp` is the number of the empty history, which is
/// shown.
///
/// # Errors
///
/// Where the readers' table gives no place.
fn make_viewers<H: Wait + Drop>(
    publisher: &mut Publisher<H>,
    stamp: &Stamp,
    mut viewers: Vec<Viewer>,
    count: usize,
) -> Result<Vec<Viewer>, AllocError>
    requires stamp { (publisher.old ≡ stamp.now) × (stamp.now.history ≡ []) }
    requires room { (viewers.items ≡ []) × (count ≤ vec_capacity viewers) }
    ensures same { publisher.new ≡ publisher.old }
    ensures viewers { IfOk result (λ v. v.items ≡ new_viewers stamp.now.origin count) }
{
    for _ in 0..count {
        let reader = publisher.reader()?;
        viewers.push_reserved(Viewer::new(reader, stamp));
    }
    Ok(viewers)
}
