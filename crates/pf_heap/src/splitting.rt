ghost use Rattle.std.specs.Prelude.{◌≡◌, ◌≤◌, ◌↔◌, IsTrue};
ghost use Rattle.pf_heap.specs.Forest.{none, tree, nowhere, forest_weight, at_place};
ghost use Rattle.pf_heap.specs.Memory.{node_at};
ghost use Rattle.pf_heap.specs.Pops.{HasHeap};
ghost use Rattle.pf_heap.specs.Split.{HasNode, IsTop, HasTreeOf, HasHalves, IsHalved, IsSplit};

use crate::links::{relink, unlink};
use crate::node::{NOWHERE, Node};
use crate::table::RANKS;

/// The root above a node.
pub(crate) fn top(nodes: &[Node], at: u16) -> u16
    requires can { HasNode nodes.now at }
    ensures { IsTop nodes.now at result }
{
    let mut now = at;
    for step in 0..RANKS {
        let parent = nodes[now as usize].parent;
        if parent == NOWHERE {
            return now;
        }
        now = parent;
    }
    now
}

/// Whether the list has this root.
pub(crate) fn has_root(nodes: &[Node], link: u16, at: u16) -> bool
    requires can { HasHeap nodes.now link }
    requires root { (node_at nodes.now at).parent ≡ nowhere }
    ensures { (can : HasHeap nodes.now link) → IsTrue result ↔ (1 ≤ forest_weight (at_place at) can.heap) }
{
    let mut rest = link;
    for step in 0..RANKS {
        if rest == NOWHERE {
            return false;
        }
        if rest == at {
            return true;
        }
        rest = nodes[rest as usize].sibling;
    }
    false
}

/// Of two roots, in one of whose trees a node is, puts the other one in front of a list: the root with the node, and the
/// list's first root.
fn keep_half(nodes: &mut [Node], x: u16, y: u16, at: u16, link: u16) -> (u16, u16)
    requires can { HasHalves nodes.old x y at link }
    ensures { (can : HasHalves nodes.old x y at link) → IsHalved nodes.new x y at can result.0 result.1 }
{
    if top(nodes, at) == y {
        relink(nodes, x, link);
        return (y, x);
    }
    relink(nodes, y, link);
    (x, y)
}

/// Splits a tree until this node of it stands alone, each time into its two halves: the other halves are a list of one
/// tree of each lower rank. No keys are compared.
pub(crate) fn split(nodes: &mut [Node], root: u16, at: u16) -> u16
    requires can { HasTreeOf nodes.old root at }
    ensures { (can : HasTreeOf nodes.old root at)
        → IsSplit nodes.new at (tree root can.key can.rank can.kids none) can.others result }
{
    let mut half = root;
    let mut halves = NOWHERE;
    let rank = nodes[root as usize].rank;
    for step in 0..rank {
        let child = nodes[half as usize].child;
        unlink(nodes, half, child);
        let (kept, other) = keep_half(nodes, half, child, at, halves);
        half = kept;
        halves = other;
    }
    halves
}
