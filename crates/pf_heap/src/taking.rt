ghost use Rattle.std.specs.Prelude.{◌≢◌, ◌<◌};
ghost use Rattle.pf_heap.specs.Table.{HasTable};
ghost use Rattle.pf_heap.specs.Taking.{HasTwoHeaps, IsMerged, CanTake, IsTaken, CanTakeFrom, IsTakenFrom, IsFirstTaken};

use crate::links::{release, strip};
use crate::node::Node;
use crate::popping::part;
use crate::splitting::split;
use crate::table::Roots;
use pf_order::meter::Meter;

/// Merges two lists.
pub(crate) fn merge(nodes: &mut [Node], meter: &mut Meter, x: u16, y: u16) -> u16
    requires can { HasTwoHeaps nodes.old x y }
    ensures { (can : HasTwoHeaps nodes.old x y)
        → IsMerged nodes.new can.first can.second can.others result meter.old meter.new }
{
    let mut roots = Roots::new();
    roots.add_all(nodes, meter, x);
    roots.add_all(nodes, meter, y);
    roots.list(nodes)
}

/// Takes a node of the tree of this root out of a list: the list that is left.
pub(crate) fn take(nodes: &mut [Node], meter: &mut Meter, link: u16, root: u16, at: u16) -> u16
    requires can { CanTake nodes.old link root at }
    ensures { (can : CanTake nodes.old link root at)
        → IsTaken nodes.new can.heap can.others at result meter.old meter.new }
{
    let rest = part(nodes, link, root);
    let halves = split(nodes, root, at);
    let left = merge(nodes, meter, rest, halves);
    release(nodes, at);
    left
}

/// Takes a node of the tree of this root and rank out of a table.
pub(crate) fn take_from(
    nodes: &mut [Node],
    meter: &mut Meter,
    roots: &mut Roots,
    rank: u32,
    root: u16,
    at: u16,
)
    requires low { rank < 16 }
    requires can { CanTakeFrom nodes.old roots.old rank root at }
    ensures { (can : CanTakeFrom nodes.old roots.old rank root at)
        → IsTakenFrom nodes.new roots.new can.trees can.others at meter.old meter.new }
{
    let halves = split(nodes, root, at);
    roots.remove(rank);
    roots.add_all(nodes, meter, halves);
    release(nodes, at);
}

/// Takes the root with the first key out of a table that has one: that root.
pub(crate) fn take_first(nodes: &mut [Node], meter: &mut Meter, roots: &mut Roots) -> u16
    requires some { roots.old.ranks ≢ 0 }
    requires can { HasTable nodes.old roots.old }
    ensures { (can : HasTable nodes.old roots.old)
        → IsFirstTaken nodes.new roots.new can.trees can.others result meter.old meter.new }
{
    let at = roots.first(nodes, meter);
    let node = nodes[at as usize];
    strip(nodes, at);
    roots.remove(node.rank as u32);
    roots.add_all(nodes, meter, node.child);
    release(nodes, at);
    at
}
