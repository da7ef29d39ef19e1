//! What of a script stands in a page. The one contract of this folder: the data of a page has no `<`, whatever the script.

pub mod laws;
