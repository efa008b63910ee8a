//! Communications link transmission units (CLTUs) of telecommand links (CCSDS 231.0-B): code blocks, functions that
//! write CLTUs, the decoder that finds them in a stream of octets, and the randomiser.
//!
//! A code block carries seven octets. Laws about the definitions stand as contracts of functions with empty bodies:
//! [`the_parity_is_the_remainder`], [`code_blocks_are_so`], [`code_blocks_differ_in_four_places`],
//! [`each_turned_bit_is_an_error`], [`a_cltu_is_so`], [`a_cltu_gives_its_frame`], [`a_cltu_gives_its_frames`],
//! [`the_next_cltu_is_found`], [`the_random_sequence_comes_off_as_it_went_on`].

mod block;
mod decoder;
mod laws;
mod randomiser;
mod tables;
mod writer;

pub use block::{Blocks, Fate, Judged, Mode, accept, decode_block, encode_block, judge};
pub use decoder::{Decoder, Fed, begins};
pub use laws::{
    a_cltu_gives_its_frame, a_cltu_gives_its_frames, a_cltu_is_so, code_blocks_are_so,
    code_blocks_differ_in_four_places, each_turned_bit_is_an_error, the_next_cltu_is_found,
    the_parity_is_the_remainder, the_random_sequence_comes_off_as_it_went_on,
};
pub use randomiser::randomise;
pub use writer::{CltuFault, MOST_OCTETS, START, TAIL, write_cltu};
