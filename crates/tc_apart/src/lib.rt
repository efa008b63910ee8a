//! Laws which state that operations on one channel don't affect another. They are about lists of operations on the
//! channels of a spacecraft ([`channels_do_not_touch_each_other`]), about the operations of scripts
//! ([`channels_of_a_script_do_not_touch_each_other`]), and about the channels that the close of a station returns
//! ([`channels_of_a_station_do_not_touch_each_other`]).
//!
//! Three more laws are about programs and threads. [`a_thread_that_brings_all_frames_makes_a_loop`] covers the way from a
//! sender's frames to the packets that are taken, if one thread brings the frames to a station at which any threads
//! work. [`a_session_does_a_script_as_tcrx_does`] states that a session carries out a script as `tcrx run` does.
//! [`tcmake_writes_numbered_frames`] is about the frames that `tcmake` writes for a sender's units.
#![tactic(auto)]

mod laws;
mod making;
mod sessions;
mod threads;

pub use laws::{
    channels_do_not_touch_each_other, channels_of_a_script_do_not_touch_each_other,
    channels_of_a_station_do_not_touch_each_other,
};
pub use making::tcmake_writes_numbered_frames;
pub use sessions::a_session_does_a_script_as_tcrx_does;
pub use threads::{
    a_course_comes_to_this, a_thread_that_brings_all_frames_makes_a_loop,
    calls_without_an_event_fit_a_course,
};
