//! A schedule to look at: a chart in characters, with a line for each processor, and of each task its windows, its lag and
//! what befell it. The one contract of this crate: from a snapshot `chart_pieces` gives the bytes of the chart.
#![tactic(auto)]

mod block;
pub mod cells;
pub mod chart;
pub mod frame;
pub mod labels;
pub mod laws;
pub mod line;
pub mod ruler;
pub mod symbols;
pub mod task_lines;
pub mod track_row;
