//! How far each number of a plan may go, the others as they are. The one contract of this folder: with the margin in place of the
//! number the tasks fit over a base, and none greater, or of periods none less, does.

pub mod fitting;
pub mod laws;
pub mod least_period;
pub mod margin;
pub mod margins;
pub mod periods;
pub mod switches;
pub mod works;
