//! The words with which a program is started.

use std::alloc::AllocError;
use std::env::{Env, FillError};
use std::fmt;

/// A reason why the words of the command line can't be used.
#[derive(Debug, Drop)]
pub(crate) enum WordsFault {
    /// The first word that isn't UTF-8, with its place. The program's name is at place 0.
    NotText { place: usize, octets: Vec<u8> },
    /// Memory for the words ran out.
    NoMemory,
}

/// Returns the words of the command line, the program's name first.
pub(crate) fn read_words<R: Env + AllocGlobal>(rt: &R) -> Result<Vec<String>, WordsFault> {
    let mut words = Vec::new(rt.alloc());
    for place in 0..usize::MAX {
        let Some(octets) = octets_of_word(rt, place)? else {
            break;
        };
        let word = match String::from_utf8(octets) {
            Ok(word) => word,
            Err(error) => {
                let octets = error.into_bytes();
                return Err(WordsFault::NotText { place, octets });
            }
        };
        if words.push(word).is_err() {
            return Err(WordsFault::NoMemory);
        }
    }
    Ok(words)
}

// The number of octets for which a word has room at first.
const FIRST_ROOM: usize = 256;

// Returns the octets of the word at a place, if there is one.
fn octets_of_word<R: Env + AllocGlobal>(
    rt: &R,
    place: usize,
) -> Result<Option<Vec<u8>>, WordsFault> {
    let mut room = FIRST_ROOM;
    for _ in 0..usize::BITS {
        let mut octets = vec![in rt.alloc(); 0u8; room]?;
        match rt.arg(place, octets.as_mut_slice()) {
            Ok(count) => {
                octets.truncate(count);
                return Ok(Some(octets));
            }
            Err(FillError::NotPresent) => return Ok(None),
            Err(FillError::TooLong) => room = room.saturating_mul(2),
        }
    }
    Err(WordsFault::NoMemory)
}

impl From<AllocError> for WordsFault {
    fn from(_error: AllocError) -> WordsFault {
        WordsFault::NoMemory
    }
}

impl fmt::Display for WordsFault {
    fn fmt<W: fmt::Write>(&self, f: &mut fmt::Formatter<W>) -> fmt::Result {
        match self {
            WordsFault::NotText { place, octets } => {
                write!(
                    f,
                    "word {place} isn't valid UTF-8: {}",
                    octets.escape_ascii()
                )
            }
            WordsFault::NoMemory => f.write_str("no memory"),
        }
    }
}
