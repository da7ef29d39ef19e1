ghost use Rattle.std.specs.Prelude.{◌≡◌};
ghost use Rattle.pf_order.specs.Priority.{Priority};
ghost use Rattle.pf_heap.specs.Memory.{idle_node};

use pf_order::key::Key;
use pf_weight::base::Base;
use pf_weight::weight::Weight;

/// The link that stands for no node.
pub(crate) const NOWHERE: u16 = u16::MAX;

/// The rank of a node that is in no heap.
pub(crate) const IDLE: u16 = u16::MAX;

/// The key of a task in its tree: the task's number is the node's index, and links are indexes too.
#[derive(Clone, Copy)]
pub(crate) struct Node {
    pub(crate) key: Key,
    pub(crate) parent: u16,
    pub(crate) sibling: u16,
    pub(crate) child: u16,
    pub(crate) rank: u16,
}

/// A node in no heap. Its key is that of the first subtask of a task of weight 1, since it must have one.
pub(crate) fn idle_node() -> Node
    ensures { (key : Priority) × (result ≡ idle_node key) }
{
    let Ok(base) = Base::new(1) else {
        unreachable!()
    };
    let Ok(weight) = Weight::new(base, 1, 1) else {
        unreachable!()
    };
    Node {
        key: Key::of(weight, 0, 1, 1),
        parent: NOWHERE,
        sibling: NOWHERE,
        child: NOWHERE,
        rank: IDLE,
    }
}
