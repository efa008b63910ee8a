//! A loop of a sender and a receiver. A sender numbers its frames and keeps a sliding window, as FOP-1 does (the frame
//! operation procedure, CCSDS 232.1-B). The receiver runs FARM-1 and replies with CLCWs. Both links may lose, repeat
//! and delay frames and CLCWs, but keep their order. The two conditions of
//! `what_was_sent_is_accepted_once_and_in_order` of tc_channel hold in each loop.
//!
//! [`known_after`] returns the number of frames that a sender knows to be accepted after a CLCW, and [`may_send`]
//! checks the window of a sender. All other functions are laws, which have an empty body.

mod hearing;
mod laws;

pub use hearing::{known_after, may_send};
pub use laws::{
    a_loop_accepts_what_was_sent_once_and_in_order, a_loop_can_always_go_on,
    a_loop_is_never_locked_out, a_loop_passes_on_what_was_sent_in_order,
    a_number_of_its_own_shows_that_set_v_r_was_obeyed, a_sender_knows_what_is_accepted,
    a_session_comes_to_this, a_wider_window_can_lock_out, a_window_twice_as_wide_shows_a_sender,
    an_era_that_set_v_r_starts_is_a_loop, each_premise_is_needed, each_receiver_can_be_in_a_loop,
    frames_of_a_loop_come_in_their_time, report_values_are_read_so, starts_come_to_this,
};
