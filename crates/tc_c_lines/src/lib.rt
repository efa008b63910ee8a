//! The calls for C that answer lines of text. C holds a session in a seat in its own memory. It calls the session with
//! one line at a time, and with a buffer for the text of the answer. The texts are those of the programs `tclive`,
//! `tcrx run` and `tcmake`.
//!
//! Each call returns a status, alone or as the first field of a record. No call keeps a pointer that is passed to it.
//! The header `dist/tcrx_lines.h` documents these calls for callers in C.
#![tactic(auto)]

mod calls;
mod lent;
mod place;
mod seat;
mod start;

pub use calls::{
    FlagRecord, tcrx_lines_answer_at, tcrx_lines_end_at, tcrx_lines_free_at, tcrx_lines_live_at,
    tcrx_lines_make_at, tcrx_lines_saw_check_sums_at, tcrx_lines_script_at, tcrx_lines_text_at,
};
pub use place::Place;
pub use seat::Seat;
