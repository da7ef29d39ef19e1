use crate::calls::{DeskBoard, DeskPass};
use crate::locked::Locked;
use crate::naming::Naming;
use std::sync::Wait;

/// What a desk that memory did not suffice to close leaves: all of it.
#[derive(Drop)]
pub struct Unclosed<N: Naming, H: Wait + Drop> {
    pub board: DeskBoard,
    pub locked: Locked<N, H>,
    pub passes: Vec<DeskPass>,
}
