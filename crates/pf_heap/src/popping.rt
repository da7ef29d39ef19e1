ghost use Rattle.std.specs.Prelude.{◌≢◌};
ghost use Rattle.pf_heap.specs.Pops.{HasHeap, IsLeastRoot, HasHeapAndRoot, IsRightBefore, IsParted};

use crate::links::{earlier, relink};
use crate::node::{NOWHERE, Node};
use crate::table::RANKS;
use pf_order::meter::Meter;

/// The root with the first key of a list that has one. One comparison for each root but one.
pub(crate) fn least_root(nodes: &[Node], meter: &mut Meter, link: u16) -> u16
    requires some { link ≢ NOWHERE }
    requires can { HasHeap nodes.now link }
    ensures { (can : HasHeap nodes.now link) → IsLeastRoot can.heap result meter.old meter.new }
{
    let mut best = link;
    let mut rest = nodes[link as usize].sibling;
    for step in 0..RANKS {
        if rest == NOWHERE {
            return best;
        }
        best = earlier(nodes, meter, best, rest);
        rest = nodes[rest as usize].sibling;
    }
    best
}

/// The root right before another one, which isn't the first.
fn before(nodes: &[Node], link: u16, at: u16) -> u16
    requires behind { link ≢ at }
    requires can { HasHeapAndRoot nodes.now link at }
    ensures { (can : HasHeapAndRoot nodes.now link at) → IsRightBefore result at can.heap }
{
    let mut now = link;
    for step in 0..RANKS {
        let next = nodes[now as usize].sibling;
        if next == at {
            return now;
        }
        now = next;
    }
    now
}

/// Cuts this root out of its list: the list that stays.
pub(crate) fn part(nodes: &mut [Node], link: u16, at: u16) -> u16
    requires can { HasHeapAndRoot nodes.old link at }
    ensures { (can : HasHeapAndRoot nodes.old link at)
        → IsParted nodes.new can.heap can.others at can.key can.rank can.kids result }
{
    let next = nodes[at as usize].sibling;
    if link == at {
        relink(nodes, at, NOWHERE);
        return next;
    }
    let last = before(nodes, link, at);
    relink(nodes, at, NOWHERE);
    relink(nodes, last, next);
    link
}
