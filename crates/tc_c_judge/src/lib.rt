//! The calls for C that judge receivers and senders that somebody else built. C holds a judge in a seat in its own
//! memory. A judge of a receiver is told which frames are sent and which CLCWs are heard. A judge of a sender is told
//! which Type-AD frames arrive, which CLCWs the receiver makes, and which Set V(R) are obeyed.
//!
//! Each call returns a status, alone or as the first field of a record. No call keeps a pointer that is passed to it.
//! Memory is requested only when a judge is created.
#![tactic(auto)]

mod held;
mod lent;
mod place;
mod receivers;
mod records;
mod seat;
mod senders;
mod settings;
mod start;
mod storage;

pub use held::{ChannelId, HeldJudge, ReceiverJudge};
pub use place::Place;
pub use receivers::{
    tcrx_judge_found_at, tcrx_judge_go_on_at, tcrx_judge_heard_at, tcrx_judge_possible_at,
    tcrx_judge_restart_at, tcrx_judge_restart_from_at, tcrx_judge_sent_at, tcrx_judge_word_at,
};
pub use records::{FlagRecord, VerdictRecord, WordRecord};
pub use seat::Seat;
pub use senders::{tcrx_sender_arrived_at, tcrx_sender_made_at, tcrx_sender_set_at};
pub use settings::JudgeSettings;
pub use start::{tcrx_judge_free_at, tcrx_judge_new_at, tcrx_sender_new_at};
pub use storage::{tcrx_judge_storage, tcrx_sender_storage};
