//! Parts that the tests of several crates share: frames and replies, settings given as data, the forms of a channel,
//! lists that are created even if memory is refused once, and streams that fail.
#![tactic(auto)]

mod form;
mod frames;
mod growths;
mod streams;
mod wanted;

pub use form::Form;
pub use frames::{
    AD_UNIT, BD_PACKET, BD_UNIT, BEHIND, BUFFERED, DELIVERED, FRAME, NEXT, NO_FLAG, NO_ROOM,
    NOTHING, ONE, PACKET, UNIT, UNLOCK, ad_frame, frame_event, is_frame, offer,
};
pub use growths::{
    copied, have_texts, is_answered, is_taken, list_of, made_again, note, octets_of, room,
};
pub use streams::{Failing, Watched};
pub use wanted::{WANTED, Wanted, settings};
