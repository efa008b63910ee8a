//! Writing CLTUs.

ghost use Rattle.std.specs.Prelude.{◌≡◌, ◌+◌, ◌*◌, ◌/◌, ◌<◌, ◌≤◌, ◌++◌, None, length, vec_len, vec_capacity, unwrap_or, IfOk, IfErr, OnOk};
ghost use Rattle.tc_edges.specs.Cltu.CodeBlock.{code_block};
ghost use Rattle.tc_edges.specs.Cltu.Cltu.{cltu, filled, code_blocks, most_octets, cltu_fault_of};

use crate::cltu::block::parity;
use std::alloc::{AllocError, Global};
use thiserror::Error;

/// The largest number of octets that a CLTU carries, fill included. They fill 147 code blocks, as many as the longest
/// frame, of 1,024 octets, needs.
pub const MOST_OCTETS: usize = 1029;

/// The start sequence of a CLTU.
pub const START: [u8; 2] = [0xeb, 0x90];

/// The tail sequence, a block that no mode accepts.
pub const TAIL: [u8; 8] = [0xc5, 0xc5, 0xc5, 0xc5, 0xc5, 0xc5, 0xc5, 0x79];

/// The first reason, in this order, why octets can't become a CLTU.
#[derive(Clone, Copy, Debug, PartialEq, Eq, Error)]
pub enum CltuFault {
    /// A CLTU carries at least one octet.
    #[error("no octets")]
    Empty,
    /// A [`Decoder`](crate::cltu::Decoder) has room for [`MOST_OCTETS`].
    #[error("more than 1,029 octets")]
    TooLong,
    #[error("no memory")]
    NoMemory,
}

/// Writes the CLTU that carries a frame or other octets: the start sequence, the code blocks, and the tail sequence.
/// The last code block has fill if the octets don't fill it.
///
/// The only allocation is the CLTU.
pub fn write_cltu(alloc: Global, frame: &[u8]) -> Result<Vec<u8>, CltuFault>
    ensures octets { IfOk result (λ made. made.items ≡ cltu frame.now) }
    ensures made { OnOk result (cltu_fault_of frame.now ≡ None) }
    ensures refused { IfErr result (λ fault. fault ≡ unwrap_or (cltu_fault_of frame.now) CltuFault.NoMemory) }
{
    if frame.is_empty() {
        return Err(CltuFault::Empty);
    }
    if frame.len() > MOST_OCTETS {
        return Err(CltuFault::TooLong);
    }
    let Ok(made) = coded(alloc, frame) else {
        return Err(CltuFault::NoMemory);
    };
    Ok(made)
}

// Returns the CLTU that carries `frame`. Memory for all of it is allocated at the start.
fn coded(alloc: Global, frame: &[u8]) -> Result<Vec<u8>, AllocError>
    requires { length frame.now ≤ most_octets }
    ensures { IfOk result (λ made. made.items ≡ cltu frame.now) }
{
    let blocks = (frame.len() + 6) / 7;
    let mut made = Vec::with_capacity(alloc, 8 * blocks + 10)?;
    made.extend_from_slice(&START).unwrap();
    let mut rest = frame;
    while rest.len() >= 7 {
        let (seven, others) = rest.split_at(7);
        push_block(&mut made, seven);
        rest = others;
    }
    push_last(&mut made, rest);
    made.extend_from_slice(&TAIL).unwrap();
    Ok(made)
}

// If any octets remain, adds their code block, with its fill.
fn push_last(made: &mut Vec<u8>, octets: &[u8])
    requires few { length octets.now < 7 }
    requires room { vec_len made.old + 8 * ((length octets.now + 6) / 7) + 8 ≤ vec_capacity made.old }
    ensures items { made.new.items ≡ made.old.items ++ code_blocks (filled octets.now) }
    ensures room { vec_len made.new + 8 ≤ vec_capacity made.new }
{
    if octets.is_empty() {
        return;
    }
    push_block(made, &with_fill(octets));
}

// Adds the code block of the seven octets `information` to `made`.
fn push_block(made: &mut Vec<u8>, information: &[u8])
    requires seven { length information.now ≡ 7 }
    requires room { vec_len made.old + 8 ≤ vec_capacity made.old }
    ensures items { made.new.items ≡ made.old.items ++ code_block information.now }
    ensures len { vec_len made.new ≡ vec_len made.old + 8 }
    ensures capacity { vec_capacity made.old ≤ vec_capacity made.new }
{
    made.extend_from_slice(information).unwrap();
    made.extend_from_slice(&[parity(information) << 1]).unwrap();
}

// Returns one to six octets, followed by fill.
fn with_fill(octets: &[u8]) -> [u8; 7]
    requires some { 0 < length octets.now }
    requires few { length octets.now < 7 }
    ensures octets { result ≡ filled octets.now }
    ensures seven { length result ≡ 7 }
{
    let mut information = [0x55; 7];
    information[..octets.len()].copy_from_slice(octets);
    information
}
