//! The unit that a field ends, computed slowly from its definition, over all fields of the stream.

use std::alloc::{AllocError, Global};
use tc_packet::Service;

#[derive(Drop)]
pub struct Given {
    pub service: Service,
    pub field: Vec<u8>,
}

fn flags(field: &[u8]) -> Option<u8> {
    field.first().map(|header| header >> 6)
}

fn map(field: &[u8]) -> Option<u8> {
    field.first().map(|header| header & 0x3f)
}

// Returns whether the fields are a single unsegmented one, or a first and a last one with only continuing ones between
// them.
fn are_one_unit(fields: &[&[u8]]) -> bool {
    match fields {
        [] => false,
        [only] => flags(only) == Some(3),
        [first, between @ .., last] => {
            flags(first) == Some(1)
                && flags(last) == Some(2)
                && between.iter().all(|field| flags(field) == Some(0))
        }
    }
}

fn joined_bodies(alloc: Global, fields: &[&[u8]]) -> Result<Vec<u8>, AllocError> {
    let mut octets = Vec::new(alloc);
    for field in fields {
        if let Some((_, body)) = field.split_first() {
            octets.extend_from_slice(body)?;
        }
    }
    Ok(octets)
}

pub fn unit_after(
    alloc: Global,
    given: &[Given],
    service: Service,
    field: &[u8],
) -> Result<Option<Vec<u8>>, AllocError> {
    let mut stream: Vec<&[u8]> = Vec::new(alloc);
    for earlier in given {
        if earlier.service == service && map(&earlier.field) == map(field) {
            stream.push(&earlier.field)?;
        }
    }
    stream.push(field)?;
    for start in 0..stream.len() {
        let fields = &stream[start..];
        if are_one_unit(fields) {
            let unit = joined_bodies(alloc, fields)?;
            return Ok(if unit.len() <= 65_542 {
                Some(unit)
            } else {
                None
            });
        }
    }
    Ok(None)
}
