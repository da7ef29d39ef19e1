ghost use Rattle.std.specs.Prelude.{◌≡◌, ◌≤◌, length, IfOk};
ghost use Rattle.pf_chart.specs.Chart.{chart_text_of, task_chart_text_of, text_between};
ghost use Rattle.pf_courses.specs.Listing.{counts_of, listings_of};
ghost use Rattle.pf_chart.specs.Shown.{shown_of};

use crate::block::block_text;
use crate::frame::{head, legend, task_head, task_legend};
use crate::labels::Labels;
use pf_courses::counts::counts;
use pf_courses::listed::Listed;
use pf_courses::listings::listings;
use pf_desk::snapshot::Snapshot;
use pf_text::pieces::{Chain, Pieces, Whole};
use pf_vocabulary::names::titles::Titles;
use pf_vocabulary::tasks::task_list::TaskList;
use std::alloc::{AllocError, Global};
use std::marker::Model;

/// The blocks of a chart, from a slot on.
#[derive(Drop)]
pub struct Blocks<'a> {
    snapshot: &'a Snapshot,
    labels: Labels<'a>,
    listed: Vec<Listed>,
    /// Of each slot below now, how many processors are in use in it.
    counts: Vec<u64>,
    /// The first slot that is left.
    from: u64,
    /// The slot at which they end.
    to: u64,
}

impl<'a> Model for Blocks<'a> {
    ghost use Rattle.std.specs.Prelude.{ℕ, List, ◌≡◌, ◌≤◌, length};
    ghost use Rattle.pf_chart.specs.Chart.{blocks_text};
    ghost use Rattle.pf_courses.specs.Listing.{counts_of};

    ghost Value = { List ℕ };

    ghost view = { λ b. blocks_text b.snapshot.now b.labels b.listed.items b.from b.to };

    ghost invariant = { λ b. (b.counts.items ≡ counts_of b.snapshot.now.state.plan b.snapshot.now.state.now b.snapshot.now.rows) × (b.to ≤ length b.snapshot.now.rows) };
}

impl<'a> Pieces for Blocks<'a> {
    ghost left = { λ b. b };

    ghost outcome = { λ _. tt };

    fn next_piece(&mut self, alloc: Global) -> Result<Option<Vec<u8>>, AllocError> {
        if self.from >= self.to {
            return Ok(None);
        }
        let end = self.from + (self.to - self.from).min(self.labels.block_length());
        let text = block_text(
            alloc,
            self.snapshot,
            &self.labels,
            &self.listed,
            &self.counts,
            self.from,
            end,
        )?;
        self.from = end;
        Ok(Some(text))
    }
}

/// How many processors are in use in each slot that a snapshot shows.
fn counts_of(alloc: Global, snapshot: &Snapshot) -> Result<Vec<u64>, AllocError>
    ensures { IfOk result (λ v. v.items ≡ counts_of snapshot.now.state.plan snapshot.now.state.now snapshot.now.rows) }
{
    // That the rows are those of the scenario's run is known from its calls alone.
    let _ = snapshot.now();
    counts(
        alloc,
        snapshot.scenario(),
        snapshot.rows(),
        snapshot.denials(),
    )
}

/// The listed tasks that a snapshot shows, by number.
fn listings_of(alloc: Global, snapshot: &Snapshot) -> Result<Vec<Listed>, AllocError>
    ensures { IfOk result (λ v. v.items
        ≡ listings_of snapshot.now.state.plan snapshot.now.state.now snapshot.now.rows snapshot.now.denials) }
{
    // That the rows are those of the scenario's run is known from its calls alone.
    let _ = snapshot.now();
    listings(
        alloc,
        snapshot.scenario(),
        snapshot.rows(),
        snapshot.denials(),
    )
}

/// A chart in pieces: its head, its blocks, and the legend.
pub type ChartPieces<'a> = Chain<Whole, Chain<Blocks<'a>, Whole>>;

/// The chart of these tasks in pieces, after this head and before this legend.
fn pieces_between<'a>(
    alloc: Global,
    snapshot: &'a Snapshot,
    titles: &'a Titles,
    head: Vec<u8>,
    legend: Vec<u8>,
    shown: Vec<Listed>,
    from: u64,
    to: u64,
) -> Result<ChartPieces<'a>, AllocError>
    requires { to ≤ snapshot.now.state.now }
    ensures { IfOk result
        (λ pieces. pieces ≡ text_between snapshot.now titles.now from to head.items legend.items shown.items) }
{
    // That there are rows of all slots below now is known from this call alone.
    let _ = snapshot.now();
    let counts = counts_of(alloc, snapshot)?;
    let labels = Labels::of(alloc, &titles.names, &shown)?;
    let blocks = Blocks {
        snapshot,
        labels,
        listed: shown,
        counts,
        from,
        to,
    };
    Ok(Chain::new(Whole::new(head), Chain::new(blocks, Whole::new(legend))))
}

/// The chart of the slots from `from` on, below `to`, in pieces, each of which is a block at most. A task is told by its name,
/// where it has one, and else by its number.
///
/// # Errors
///
/// Where memory is refused.
pub fn chart_pieces<'a>(
    alloc: Global,
    snapshot: &'a Snapshot,
    titles: &'a Titles,
    from: u64,
    to: u64,
) -> Result<ChartPieces<'a>, AllocError>
    requires { to ≤ snapshot.now.state.now }
    ensures { IfOk result (λ pieces. pieces ≡ chart_text_of snapshot.now titles.now from to) }
{
    let settings = snapshot.settings();
    let head = head(alloc, settings, titles.slot, snapshot.now(), from, to)?;
    let legend = legend(alloc)?;
    let listed = listings_of(alloc, snapshot)?;
    pieces_between(alloc, snapshot, titles, head, legend, listed, from, to)
}

/// Those of the listed tasks that are in the list.
fn shown_of(listed: Vec<Listed>, tasks: &TaskList) -> Vec<Listed>
    ensures { result.items ≡ shown_of tasks.now listed.items }
{
    let mut shown = listed;
    shown.retain(|listing| tasks.has(u64::from(listing.task())));
    shown
}

/// That chart with the tasks of a list alone, in pieces. Another task that runs is a dot, and the head tells how many of the
/// listed tasks are shown.
///
/// # Errors
///
/// Where memory is refused.
pub fn task_chart_pieces<'a>(
    alloc: Global,
    snapshot: &'a Snapshot,
    titles: &'a Titles,
    tasks: &TaskList,
    from: u64,
    to: u64,
) -> Result<ChartPieces<'a>, AllocError>
    requires { to ≤ snapshot.now.state.now }
    ensures { IfOk result (λ pieces. pieces ≡ task_chart_text_of snapshot.now titles.now tasks.now from to) }
{
    let settings = snapshot.settings();
    let now = snapshot.now();
    let listed = listings_of(alloc, snapshot)?;
    let count = listed.len() as u64;
    let shown = shown_of(listed, tasks);
    let many = shown.len() as u64;
    let head = task_head(alloc, settings, titles.slot, many, count, now, from, to)?;
    let legend = task_legend(alloc)?;
    pieces_between(alloc, snapshot, titles, head, legend, shown, from, to)
}
