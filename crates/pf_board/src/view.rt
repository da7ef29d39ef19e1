use crate::hand::Hand;
use crate::quantum::Quantum;
use std::collections::LinkedList;

/// What a seat at the board's table knows. No value of it is made.
pub struct View<E, T> {
    /// The board's terms. None where the seat is spent.
    pub terms: LinkedList<T>,
    /// Whether it is a pass, and then its number.
    pub named: bool,
    pub me: u32,
    /// A beginning of the history: each entry beside the number of the pass that noted it.
    pub seen: LinkedList<(u32, E)>,
    /// The pass's own entries.
    pub mine: LinkedList<E>,
    /// The quanta that the pass took.
    pub taken: LinkedList<Quantum>,
    /// The words that it loaded, each with the value found.
    pub loads: LinkedList<(u64, u64)>,
    /// The passes' hands that it carries.
    pub guests: LinkedList<Hand<E>>,
    /// Whether it has the turn. Only then the rest says something.
    pub turn: bool,
    /// The whole history.
    pub whole: LinkedList<(u32, E)>,
    /// The number of the next new pass.
    pub next: u32,
    /// Processors whose words are empty.
    pub empty: LinkedList<u32>,
    /// The quanta that were put onto words, and those that are still to be.
    pub issued: LinkedList<Quantum>,
    pub left: LinkedList<Quantum>,
}
