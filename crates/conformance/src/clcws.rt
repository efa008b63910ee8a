//! Words that another program built, and the fields of the words that are CLCWs.

use anyhow::{Result, anyhow};
use std::alloc::Global;
use tc_link::{ClcwFields, Report, State, clcw_word, read_clcw};

/// Returns whether the library agrees with a line of the list. The line has a word in hexadecimal digits and then, if
/// the word is a CLCW of COP-1, its fields: status, virtual channel, No RF Available, No Bit Lock, Lockout, Wait,
/// Retransmit, FARM-B and V(R).
pub(crate) fn agrees(alloc: Global, line: &str) -> Result<bool> {
    let (digits, expected) = match line.split_once(' ') {
        Some(parts) => parts,
        None => (line, ""),
    };
    let Ok(word) = u32::from_str_radix(digits, 16) else {
        return Err(anyhow!("no word in a line of the CLCWs: {line}"));
    };
    let Some(fields) = read_clcw(word) else {
        return Ok(expected.is_empty());
    };
    let found = text_of(alloc, &fields)?;
    Ok(found.as_str() == expected && is_written(word, &fields))
}

fn text_of(alloc: Global, fields: &ClcwFields) -> Result<String> {
    Ok(format!(in alloc;
        "{} {} {} {} {} {} {} {} {}",
        fields.status,
        fields.vcid,
        u8::from(fields.link.no_rf),
        u8::from(fields.link.no_bit_lock),
        u8::from(fields.lockout),
        u8::from(fields.wait),
        u8::from(fields.retransmit),
        fields.farm_b,
        fields.vr
    )?)
}

// Returns whether the library writes these fields as this word. It only writes a status field of 0, so for fields with
// another status the result is true.
fn is_written(word: u32, fields: &ClcwFields) -> bool {
    let report = Report {
        state: State::S1,
        vr: fields.vr,
        lockout: fields.lockout,
        wait: fields.wait,
        retransmit: fields.retransmit,
        farm_b: fields.farm_b,
    };
    let ranges = fields.vcid < 64 && fields.farm_b < 4;
    fields.status != 0 || (ranges && clcw_word(&report, fields.vcid, fields.link) == word)
}
