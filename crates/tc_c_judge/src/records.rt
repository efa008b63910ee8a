//! The records that calls return.

ghost use Rattle.std.specs.Prelude.{◌≡◌};
ghost use Rattle.tc_c_judge.specs.Records.{flagged, judged, unflagged, no_verdict, no_word, word_found};

use tc_c_base::{Status, code};

/// A status with a flag.
#[repr(C)]
#[derive(Clone, Copy)]
pub struct FlagRecord {
    pub status: u32,
    /// The flag, which is 0 or 1. It is 0 if the call fails.
    pub flag: u8,
}

/// A status with a verdict.
#[repr(C)]
#[derive(Clone, Copy)]
pub struct VerdictRecord {
    pub status: u32,
    /// The number of the verdict, or 0 if the call fails.
    pub verdict: u8,
}

/// A status with a CLCW, if there is one.
#[repr(C)]
#[derive(Clone, Copy)]
pub struct WordRecord {
    pub status: u32,
    /// The 32 bits of the CLCW, or 0 if there is none.
    pub word: u32,
    /// 1 if there is a CLCW, otherwise 0.
    pub found: u8,
}

/// Returns the record of a call that is done, with this flag.
pub(crate) fn flagged(flag: bool) -> FlagRecord
    ensures { result ≡ flagged flag }
{
    FlagRecord {
        status: code(Status::Done),
        flag: u8::from(flag),
    }
}

/// Returns the record of a call that fails with this status.
pub(crate) fn unflagged(fault: Status) -> FlagRecord
    ensures { result ≡ unflagged fault }
{
    FlagRecord {
        status: code(fault),
        flag: 0,
    }
}

/// Returns the record of a call that is done, with the verdict that has this number.
pub(crate) fn judged(verdict: u8) -> VerdictRecord
    ensures { result ≡ judged verdict }
{
    VerdictRecord {
        status: code(Status::Done),
        verdict,
    }
}

/// Returns the record of a call that fails with this status.
pub(crate) fn no_verdict(fault: Status) -> VerdictRecord
    ensures { result ≡ no_verdict fault }
{
    VerdictRecord {
        status: code(fault),
        verdict: 0,
    }
}

/// Returns the record of a call that found this CLCW.
pub(crate) fn word_found(word: u32) -> WordRecord
    ensures { result ≡ word_found word }
{
    WordRecord {
        status: code(Status::Done),
        word,
        found: 1,
    }
}

/// Returns the record of a call that found no CLCW, or that fails with this status.
pub(crate) fn no_word(status: Status) -> WordRecord
    ensures { result ≡ no_word status }
{
    WordRecord {
        status: code(status),
        word: 0,
        found: 0,
    }
}
