//! The frame error control field of telecommand transfer frames (CCSDS 232.0-B, 4.1.4), and the functions that take
//! frames out of the octets that a CLTU carried.
//!
//! Laws about the definitions stand as contracts of functions with empty bodies: [`the_field_is_the_remainder`],
//! [`a_field_comes_off_as_it_went_on`], [`just_frames_with_room_for_the_field_have_no_fault`],
//! [`a_burst_of_16_bits_is_detected`], [`a_change_of_two_bits_is_detected`], [`a_change_of_three_bits_is_detected`],
//! [`a_change_of_an_odd_number_of_bits_is_detected`], [`each_candidate_is_delimited_in_one_way`].

mod candidates;
mod frames;
mod laws;
mod sum;
mod table;

pub use candidates::{Delimited, delimit, is_fill};
pub(crate) use frames::whole_frame;
pub use frames::{FieldFault, with_field, without_field};
pub use laws::{
    a_burst_of_16_bits_is_detected, a_change_of_an_odd_number_of_bits_is_detected,
    a_change_of_three_bits_is_detected, a_change_of_two_bits_is_detected,
    a_field_comes_off_as_it_went_on, each_candidate_is_delimited_in_one_way,
    just_frames_with_room_for_the_field_have_no_fault, the_field_is_the_remainder,
};
pub use sum::{checksum, passes};
