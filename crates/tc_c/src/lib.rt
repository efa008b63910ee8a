//! The receiver's calls for C. Those for FARM-1, CLCWs, transfer frames, space packets, CLTUs and telemetry frames work
//! on plain numbers, records and octets, keep no state and allocate nothing. Others work on a channel that a seat in
//! the caller's memory holds, or on many channels in an array of seats.
//!
//! Each call returns a status, alone or as the first field of a record. No call keeps a pointer that is passed to it.
//! The header `dist/tcrx.h` documents these calls for callers in C.
#![tactic(auto)]

mod buffer;
mod channel;
mod clcw;
mod cltus;
mod counts;
mod decoder;
mod farm;
mod frames;
mod laws;
mod lent;
mod packets;
mod place;
mod rack;
mod seat;
mod settings;
mod status;
mod storage;
mod takes;
mod telemetry;
mod writing;

pub use buffer::tcrx_text_at;
pub use channel::{
    DeliveryRecord, ReplyRecord, frame_with_steps, release_with_steps, tcrx_channel_frame_at,
    tcrx_channel_free_at, tcrx_channel_release_at,
};
pub use clcw::{ClcwFieldsRecord, ClcwRecord, tcrx_clcw, tcrx_read_clcw};
pub use cltus::{tcrx_randomise_at, tcrx_write_cltu_at};
pub use counts::{
    CountRecord, tcrx_channel_buffered_at, tcrx_channel_clcw_at, tcrx_channel_events_at,
    tcrx_channel_queued_at, tcrx_channel_report_at, tcrx_channel_units_at,
};
pub use decoder::{DecodedRecord, DecoderRecord, tcrx_cltu_octets_at, tcrx_cltu_search};
pub use farm::{FarmAnswer, FarmRecord, StepAnswer, tcrx_farm_start, tcrx_farm_step};
pub use frames::{
    FrameRecord, HeaderRecord, KindRecord, tcrx_kind_at, tcrx_read_frame_at, tcrx_write_frame_at,
};
pub use laws::{
    a_record_reads_back, a_step_leaves_a_farm, each_channel_has_a_farm,
    each_fault_has_a_status_of_its_own, each_kind_comes_to_farm_1, each_status_has_a_number,
    each_text_fits_64_octets, no_farm_waits_without_retransmit, statuses_have_these_numbers,
    what_was_written_reads_back,
};
pub use packets::{PacketRecord, tcrx_read_packet_at};
pub use place::Place;
pub use rack::{
    CandidateReplyRecord, PlaceRecord, RackReplyRecord, tcrx_rack_candidate_at, tcrx_rack_find_at,
    tcrx_rack_frame_at,
};
pub use seat::Seat;
pub use settings::{SettingsRecord, tcrx_channel_new_at, tcrx_channel_new_with_limits_at};
pub use storage::{tcrx_storage_at, tcrx_storage_with_limits_at};
pub use takes::{
    take_unit_with_steps, take_with_steps, tcrx_channel_take_at, tcrx_channel_take_unit_at,
};
pub use telemetry::{TmFieldsRecord, TmHeaderRecord, tcrx_read_tm_at, tcrx_write_tm_at};
pub use writing::{
    PacketHeaderRecord, tcrx_add_fecf_at, tcrx_check_fecf_at, tcrx_write_command_at,
    tcrx_write_packet_at, tcrx_write_segment_at,
};
