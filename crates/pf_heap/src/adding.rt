ghost use Rattle.std.specs.Prelude.{◌≡◌, ℕ, ◌+◌};
ghost use Rattle.pf_heap.specs.Forest.{Rises};
ghost use Rattle.pf_heap.specs.Steps.{HasRoots, IsCut, HasNodeAndList, IsAddedTo};

use crate::links::{join, relink};
use crate::node::{NOWHERE, Node};
use crate::table::RANKS;
use pf_order::meter::Meter;

/// Cuts the first tree off a list of rising ranks, if it has this rank: the tree, and the list that is left.
fn cut(nodes: &mut [Node], link: u16, rank: u32) -> (u16, u16)
    requires can { HasRoots nodes.old link }
    ensures { (can : HasRoots nodes.old link) → Rises rank can.list
        → IsCut nodes.new rank can.list can.others result.0 result.1 }
{
    if link == NOWHERE {
        return (NOWHERE, link);
    }
    let node = nodes[link as usize];
    if node.rank as u32 != rank {
        return (NOWHERE, link);
    }
    relink(nodes, link, NOWHERE);
    (link, node.sibling)
}

/// Adds a node that stands alone to a list of rising ranks: it is carried through the ranks that the list has without a
/// gap.
pub(crate) fn add(nodes: &mut [Node], meter: &mut Meter, at: u16, link: u16) -> u16
    requires can { HasNodeAndList nodes.old at link }
    ensures { (can : HasNodeAndList nodes.old at link)
        → IsAddedTo nodes.new can.added can.list can.others result meter.old meter.new }
{
    let mut carry = at;
    let mut rest = link;
    for rank in 0..RANKS {
        let (tree, left) = cut(nodes, rest, rank);
        if tree == NOWHERE {
            relink(nodes, carry, left);
            return carry;
        }
        carry = join(nodes, meter, carry, tree);
        rest = left;
    }
    carry
}
