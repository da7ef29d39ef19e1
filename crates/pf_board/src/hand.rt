use crate::quantum::Quantum;
use std::collections::LinkedList;

/// What is a pass's alone, while another seat carries it. No value of it is made.
pub struct Hand<E> {
    pub me: u32,
    pub seen: LinkedList<(u32, E)>,
    pub mine: LinkedList<E>,
    pub taken: LinkedList<Quantum>,
}
