//! Telemetry transfer frames that carry a CLCW and otherwise only idle data (CCSDS 132.0-B), for the return link of a
//! telecommand link.
//!
//! [`write_tm`] writes a frame, [`Counts`] numbers successive frames, and [`read_tm`] reads one. Laws about the
//! definitions stand as contracts of functions with empty bodies: [`a_written_frame_reads_back`],
//! [`a_telemetry_frame_is_so`], [`telemetry_frames_are_bounded_so`], [`telemetry_frames_are_counted_so`].

mod counts;
mod frame;
mod laws;
mod reading;

pub use counts::Counts;
pub use frame::{ErrorControl, TmFault, TmHeader, write_tm};
pub use laws::{
    a_telemetry_frame_is_so, a_written_frame_reads_back, telemetry_frames_are_bounded_so,
    telemetry_frames_are_counted_so,
};
pub use reading::{TmFields, TmReadFault, read_tm};
