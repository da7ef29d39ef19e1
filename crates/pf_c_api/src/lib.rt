//! The desk for callers in other languages: each call is one of pf_desk, or a text of pf_report, pf_stats, pf_chart or
//! pf_picture, at a handle that the caller keeps, and its status tells what was answered. The one contract of this crate:
//! whatever a caller passes within the types of C, the desk behind its handle stays a desk, each command is answered as the
//! desk machine answers it, and what is read is the desk's own. `include/pfair.h` is its header.
#![tactic(auto)]

mod commands;
mod faults;
mod fitting;
mod for_c;
mod handle;
mod held;
mod notice;
mod notices;
mod opening;
mod pictures;
mod raw_bad_record;
mod raw_denial;
mod raw_figures;
mod raw_fit;
mod raw_lag;
mod raw_look;
mod raw_miss;
mod raw_numbered;
mod raw_settings;
mod readings;
mod refusals;
mod replies;
mod room;
mod running;
mod script_lines;
mod supposing;
mod text_kind;
mod texts;
mod version;
