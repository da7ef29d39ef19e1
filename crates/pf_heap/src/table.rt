ghost use Rattle.std.specs.Prelude.{◌≡◌, ◌≢◌, ◌↔◌, IsTrue, ◌-◌, ◌<◌, ◌≤◌, ◌^◌, replicate, slice_index_or};
ghost use Rattle.std.specs.Int.{bit_at};
ghost use Rattle.pf_heap.specs.Forest.{nowhere};
ghost use Rattle.pf_heap.specs.Table.{HasTreeAndTable, IsInTable, HasListAndTable, HasTable, IsFirstRoot, IsListed, HasListAbove, IsListing};

use crate::links::{earlier, join, relink};
use crate::node::{NOWHERE, Node};
use pf_order::meter::Meter;

/// Ranks are below this: a tree of rank r has 2^r nodes, and there are fewer than 2^16.
pub(crate) const RANKS: u32 = 16;

/// The roots of a heap by the ranks of their trees, of which it has each once at most.
#[derive(Clone, Copy)]
pub(crate) struct Roots {
    /// The root of each rank that there is.
    trees: [u16; 16],
    /// The ranks that there are, as bits: so this is the number of the heap's keys.
    ranks: u32,
}

impl Roots {
    /// Of no tree.
    pub(crate) fn new() -> Self
        ensures { result ≡ record { trees = replicate 16 nowhere; ranks = 0 } }
    {
        Roots {
            trees: [NOWHERE; 16],
            ranks: 0,
        }
    }

    /// Whether there is no tree.
    pub(crate) fn is_empty(&self) -> bool
        ensures { IsTrue result ↔ (self.now.ranks ≡ 0) }
    {
        self.ranks == 0
    }

    /// Whether there is a tree of this rank.
    fn has(&self, rank: u32) -> bool
        requires { rank < 32 }
        ensures { IsTrue result ↔ (bit_at self.now.ranks rank ≡ 1) }
    {
        (self.ranks >> rank) & 1 == 1
    }

    /// Whether this node is the root of this rank.
    pub(crate) fn has_root(&self, rank: u32, at: u16) -> bool
        requires { rank < 16 }
        ensures { IsTrue result ↔ ((bit_at self.now.ranks rank ≡ 1) × (slice_index_or self.now.trees rank nowhere ≡ at)) }
    {
        self.has(rank) && self.trees[rank as usize] == at
    }

    /// Adds a tree of this rank: it is carried through the ranks that there are without a gap.
    pub(crate) fn add(&mut self, nodes: &mut [Node], meter: &mut Meter, rank: u32, at: u16)
        requires low { rank < 16 }
        requires can { HasTreeAndTable nodes.old self.old rank at }
        ensures { (can : HasTreeAndTable nodes.old self.old rank at)
            → IsInTable nodes.new self.new can.added can.trees can.others meter.old meter.new }
    {
        let mut carry = at;
        for now in rank..RANKS {
            if !self.has(now) {
                self.trees[now as usize] = carry;
                self.ranks += 1 << rank;
                return;
            }
            carry = join(nodes, meter, self.trees[now as usize], carry);
        }
    }

    /// Adds each tree of a list.
    pub(crate) fn add_all(&mut self, nodes: &mut [Node], meter: &mut Meter, link: u16)
        requires can { HasListAndTable nodes.old self.old link }
        ensures { (can : HasListAndTable nodes.old self.old link)
            → IsInTable nodes.new self.new can.list can.trees can.others meter.old meter.new }
    {
        let mut rest = link;
        for step in 0..RANKS {
            if rest == NOWHERE {
                return;
            }
            let node = nodes[rest as usize];
            relink(nodes, rest, NOWHERE);
            self.add(nodes, meter, node.rank as u32, rest);
            rest = node.sibling;
        }
    }

    /// Takes away the tree of this rank, which there is.
    pub(crate) fn remove(&mut self, rank: u32)
        requires low { rank < 16 }
        requires some { 2 ^ rank ≤ self.old.ranks }
        ensures { self.new ≡ record self.old { ranks = self.old.ranks - 2 ^ rank } }
    {
        self.ranks -= 1 << rank;
    }

    /// The root with the first key, where there is one. One comparison for each root but one.
    pub(crate) fn first(&self, nodes: &[Node], meter: &mut Meter) -> u16
        requires some { self.now.ranks ≢ 0 }
        requires can { HasTable nodes.now self.now }
        ensures { (can : HasTable nodes.now self.now) → IsFirstRoot can.trees result meter.old meter.new }
    {
        let lowest = self.ranks.trailing_zeros();
        let mut best = self.trees[lowest as usize];
        let mut rest = self.ranks & !(1 << lowest);
        for step in 0..RANKS {
            if rest == 0 {
                return best;
            }
            let rank = rest.trailing_zeros();
            best = earlier(nodes, meter, best, self.trees[rank as usize]);
            rest &= !(1 << rank);
        }
        best
    }

    /// The roots as a list of rising ranks.
    pub(crate) fn list(&self, nodes: &mut [Node]) -> u16
        requires can { HasTable nodes.old self.now }
        ensures { (can : HasTable nodes.old self.now) → IsListed nodes.new can.trees can.others result }
    {
        let mut link = NOWHERE;
        for step in 0..RANKS {
            link = self.push(nodes, RANKS - 1 - step, link);
        }
        link
    }

    /// Puts the tree of this rank, where there is one, in front of a list of higher ranks.
    fn push(&self, nodes: &mut [Node], rank: u32, link: u16) -> u16
        requires low { rank < 16 }
        requires can { HasListAbove nodes.old self.now rank link }
        ensures { (can : HasListAbove nodes.old self.now rank link) → IsListing nodes.new can.trees can.others result rank }
    {
        if !self.has(rank) {
            return link;
        }
        let at = self.trees[rank as usize];
        relink(nodes, at, link);
        at
    }
}
