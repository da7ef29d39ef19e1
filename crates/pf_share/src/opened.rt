use crate::calls::DeskPass;
use crate::locked::Locked;
use crate::naming::Naming;
use crate::shared::Shared;
use crate::viewer::Viewer;
use std::sync::Wait;

/// A desk with its passes and viewers.
#[derive(Drop)]
pub struct Opened<N: Naming, H: Wait + Drop> {
    pub shared: Shared<N, Locked<N, H>>,
    pub passes: Vec<DeskPass>,
    pub viewers: Vec<Viewer>,
}
