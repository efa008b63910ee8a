//! The link layer of a telecommand receiver: transfer frames, control commands, FARM-1 and the CLCW.
//!
//! Laws about the definitions stand as contracts of functions with empty bodies:
//! [`each_input_begins_with_one_frame_at_most`], [`each_header_and_field_have_one_frame`],
//! [`just_what_fits_a_frame_has_no_write_fault`], [`some_of_the_first_is_some_number`], [`each_arrival_has_an_entry`],
//! [`v_r_changes_by_acceptance_and_set_v_r_alone`], [`a_written_clcw_reads_back`], [`unlock_and_set_v_r_open_farm_1`],
//! [`frames_are_so`], [`clcws_are_so`].
#![tactic(auto)]

mod clcw;
mod command;
mod farm;
mod frame;
mod laws;
mod location;
mod window;
mod writing;

pub use clcw::{ClcwFields, Link, clcw_word, read_clcw};
pub use command::{Command, Kind, read_command};
pub use farm::{Act, Arrival, Farm, Report, State};
pub use frame::{Frame, FrameFault, Header, kind, read_frame};
pub use laws::{
    a_written_clcw_reads_back, clcws_are_so, each_arrival_has_an_entry,
    each_header_and_field_have_one_frame, each_input_begins_with_one_frame_at_most, frames_are_so,
    just_what_fits_a_frame_has_no_write_fault, some_of_the_first_is_some_number,
    unlock_and_set_v_r_open_farm_1, v_r_changes_by_acceptance_and_set_v_r_alone,
};
pub use location::LocateFault;
pub use window::{Place, Window};
pub use writing::{WriteFault, write_frame, written_header};
