//! Worked examples of weights, windows, the order of keys, admission, scenarios, rows, heaps and calendars: what their
//! definitions say of these numbers. The values were worked out from the rules by hand. Each function is a law, and its
//! contract a record of such statements.

pub mod laws;
