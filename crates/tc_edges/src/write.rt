//! The writing of packets, segments, and the frames that carry them, into octets that the caller lends. Nothing is
//! allocated.
//!
//! [`packet_front`] returns the header of a packet. A unit is sent in [`segment_count`] segments. Each segment carries
//! a [`piece`], has a [`segment_header`] and goes into a frame with a [`later_header`], which [`write_segment`] writes.
//! [`write_with_field`] adds the frame error control field, and [`write_without_field`] removes it.
//!
//! A law stands as the contract of a function with an empty body: [`the_segments_of_a_unit_make_the_unit`].

mod fields;
mod laws;
mod packets;
mod parts;
mod segments;

pub use fields::{check_adding, check_taking, write_with_field, write_without_field};
pub use laws::the_segments_of_a_unit_make_the_unit;
pub use packets::{PacketHeader, packet_front};
pub use parts::{later_header, piece, segment_count, segment_header};
pub use segments::{segment_octet, write_segment};
