ghost use Rattle.std.specs.Prelude.{◌≡◌, ◌≢◌, ◌-◌, ◌<◌, ◌≤◌, ◌^◌, length};
ghost use Rattle.pf_order.specs.Counts.{Compares};
ghost use Rattle.pf_heap.specs.Memory.{node_at, nodes_with_sibling, nodes_with_child, nodes_without_child, nodes_alone, nodes_idle, AreJoined};
ghost use Rattle.pf_heap.specs.Pops.{IsEarlier};

use crate::node::{IDLE, NOWHERE, Node};
use pf_order::meter::Meter;

/// Makes the node a root with this sibling.
pub(crate) fn relink(nodes: &mut [Node], at: u16, sibling: u16)
    requires { at < length nodes.old }
    ensures { nodes.new ≡ nodes_with_sibling nodes.old at sibling }
{
    let node = &mut nodes[at as usize];
    node.parent = NOWHERE;
    node.sibling = sibling;
}

/// Makes the root `below` the first child of the root `above`.
fn link(nodes: &mut [Node], above: u16, below: u16)
    requires upper { above < length nodes.old }
    requires lower { below < length nodes.old }
    requires rank { (node_at nodes.old above).rank < 2 ^ 16 - 1 }
    ensures { nodes.new ≡ nodes_with_child nodes.old above below }
{
    let child = nodes[above as usize].child;
    let lower = &mut nodes[below as usize];
    lower.parent = above;
    lower.sibling = child;
    let upper = &mut nodes[above as usize];
    upper.child = below;
    upper.rank += 1;
}

/// Makes one tree of two roots, and returns its root. One comparison.
pub(crate) fn join(nodes: &mut [Node], meter: &mut Meter, x: u16, y: u16) -> u16
    requires first { x < length nodes.old }
    requires second { y < length nodes.old }
    requires first_rank { (node_at nodes.old x).rank < 2 ^ 16 - 1 }
    requires second_rank { (node_at nodes.old y).rank < 2 ^ 16 - 1 }
    ensures joined { AreJoined nodes.old nodes.new x y result }
    ensures counted { Compares 1 meter.old meter.new }
{
    let read = &nodes[..];
    let turned = meter.before(&read[y as usize].key, &read[x as usize].key);
    // both choices without a branch, which would be mispredicted in every second comparison
    let above = if turned { y } else { x };
    let below = if turned { x } else { y };
    link(nodes, above, below);
    above
}

/// Cuts the first child off a root that has one: two trees of one rank are left.
pub(crate) fn unlink(nodes: &mut [Node], above: u16, below: u16)
    requires upper { above < length nodes.old }
    requires lower { below < length nodes.old }
    requires child { below ≡ (node_at nodes.old above).child }
    requires differ { above ≢ below }
    requires rank { 1 ≤ (node_at nodes.old above).rank }
    ensures { nodes.new ≡ nodes_without_child nodes.old above below }
{
    let next = nodes[below as usize].sibling;
    let upper = &mut nodes[above as usize];
    upper.child = next;
    upper.rank -= 1;
    relink(nodes, below, NOWHERE);
}

/// The node whose key comes first, x in a tie. One comparison.
pub(crate) fn earlier(nodes: &[Node], meter: &mut Meter, x: u16, y: u16) -> u16
    requires first { x < length nodes.now }
    requires second { y < length nodes.now }
    ensures earlier { IsEarlier nodes.now x y result }
    ensures counted { Compares 1 meter.old meter.new }
{
    if meter.before(&nodes[y as usize].key, &nodes[x as usize].key) {
        y
    } else {
        x
    }
}

/// Leaves the node alone: its children have no parent in any tree.
pub(crate) fn strip(nodes: &mut [Node], at: u16)
    requires { at < length nodes.old }
    ensures { nodes.new ≡ nodes_alone nodes.old at }
{
    let node = &mut nodes[at as usize];
    node.parent = NOWHERE;
    node.sibling = NOWHERE;
    node.child = NOWHERE;
    node.rank = 0;
}

/// Marks a node that stands alone as one of no heap.
pub(crate) fn release(nodes: &mut [Node], at: u16)
    requires { at < length nodes.old }
    ensures { nodes.new ≡ nodes_idle nodes.old at }
{
    nodes[at as usize].rank = IDLE;
}
