//! What no clause of the board, of the shared desk and of a drill says: that two threads get each quantum once, on a board and at
//! a desk at which a third one steps; that two planners at once each have their entries in their order; that a board and a shared
//! desk answer as their worked examples; that a desk is opened at its limits where memory is ample, that a call whose memory was
//! refused makes no entry and succeeds when it is made again, and that a viewer reads nothing once the desk is ended; that a
//! drill ends well where each gate opens, that a shut gate ends it, and that its workers run at once; and the texts of faults.
//! Threads that use a desk at once are tried by the program shared_load too.
#![tactic(auto)]

#[cfg(test)]
mod again;
#[cfg(test)]
mod answers;
#[cfg(test)]
mod board;
#[cfg(test)]
mod calls;
#[cfg(test)]
mod desk;
#[cfg(test)]
mod drills;
mod entry;
#[cfg(test)]
mod gates;
#[cfg(test)]
mod limits;
#[cfg(test)]
mod opening;
#[cfg(test)]
mod passes;
#[cfg(test)]
mod planners;
#[cfg(test)]
mod race;
#[cfg(test)]
mod refused;
#[cfg(test)]
mod steps;
#[cfg(test)]
mod takers;
#[cfg(test)]
mod texts;
#[cfg(test)]
mod worked;
