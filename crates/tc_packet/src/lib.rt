//! Segments, reassembly and space packets of a telecommand link.
//!
//! A [`Room`] holds octets, up to a size. It is either a block of that size ([`FixedRoom`]) or a block that grows
//! ([`GrowingRoom`]).
//!
//! [`Runs`] holds the open run of each stream, each in a room of its own. [`Runs::stage`] processes a data field and
//! returns the place of the unit that the field completes ([`Ended`]), so that a caller can use the unit without a
//! copy. A last segment is staged behind the open run's octets. [`Runs::commit`] ends the run once the unit is
//! delivered. If memory runs out before that, the runs are unchanged. A [`Reassembler`] wraps such runs, in rooms that
//! grow, and its calls return a copy of each unit.
//!
//! The rooms of the streams are a boxed slice, and so is the block of a [`FixedRoom`]. A boxed slice has no call that
//! grows it. With [`FixedRoom`], memory is therefore requested only when the rooms are created, and no other call can
//! run out of memory. Only the block of a [`GrowingRoom`] is a `Vec`.
//!
//! Laws about the definitions stand as contracts of functions with empty bodies:
//! [`each_unit_has_one_cut`], [`each_input_begins_with_one_packet_at_most`],
//! [`an_open_run_looks_back_over_its_stream`], [`a_unit_looks_back_over_its_stream`],
//! [`each_run_within_the_limit_is_left_by_fields`], [`a_plain_field_is_a_unit_by_itself`],
//! [`each_stream_has_a_place_of_its_own`], [`one_more_field_moves_its_run_on`],
//! [`segments_and_packets_are_so`].
#![tactic(auto)]

mod cutting;
mod fault;
mod laws;
mod packet;
mod reassembler;
mod room;
mod runs;
mod segment;
mod service;

pub use cutting::{cut, next_packet};
pub use fault::NoMemory;
pub use laws::{
    a_plain_field_is_a_unit_by_itself, a_unit_looks_back_over_its_stream,
    an_open_run_looks_back_over_its_stream, each_input_begins_with_one_packet_at_most,
    each_run_within_the_limit_is_left_by_fields, each_stream_has_a_place_of_its_own,
    each_unit_has_one_cut, one_more_field_moves_its_run_on, segments_and_packets_are_so,
};
pub use packet::{Cut, Packet, read_packet};
pub use reassembler::Reassembler;
pub use room::{FixedRoom, GrowingRoom, Room};
pub use runs::{Ended, Run, Runs};
pub use segment::{Part, Segment, read_segment};
pub use service::{LARGEST_UNIT, Service};
