//! Laws about the whole way from the packets that a sender sends to the packets and units that are taken at the
//! receiver. The laws about taken packets and units hold under the conditions of
//! `what_was_sent_is_accepted_once_and_in_order` of tc_channel, or in a [loop](crate::loops). The laws about single steps of
//! the way need neither.
//!
//! All functions are laws, which have an empty body or call other laws.

mod laws;

pub use laws::{
    a_cltu_with_few_wrong_bits_brings_its_frames, a_link_may_lose_this,
    a_link_that_idles_and_loses_alters_nothing, all_premises_are_met_at_once,
    joined_packets_are_cut_into_them, numbered_frames_send_packets, packets_from_a_start_are_given,
    packets_in_cltus_are_given, packets_of_one_stream_are_its_own, packets_that_are_sent_are_given,
    packets_that_are_sent_are_made, packets_that_are_sent_plainly_are_made,
    the_segments_of_a_unit_end_it_once, units_that_are_sent_are_given,
    units_that_are_sent_are_made, written_frames_carry_the_segments,
};
