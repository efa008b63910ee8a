//! CLCWs, which are built from a record of FARM-1, or read into a record of their fields.

ghost use Rattle.std.specs.Prelude.{◌≡◌, ◌↔◌, IfOk, IfErr};
ghost use Rattle.tc_link.specs.Clcw.{IsClcw, fields_of};
ghost use Rattle.tc_c_base.specs.Status.{code_of};
ghost use Rattle.tc_c.specs.Channel.{link_of};
ghost use Rattle.tc_c.specs.Clcw.{clcw_or_status, fields_record, no_clcw};

use crate::farm::{FarmRecord, farm, flag};
use tc_c_base::{Status, code};
use tc_link::{Link, clcw_word, read_clcw};

/// A status with a CLCW.
#[repr(C)]
#[derive(Clone, Copy)]
pub struct ClcwRecord {
    pub status: u32,
    /// The 32 bits of the CLCW, or 0 if the call fails.
    pub word: u32,
}

/// The fields of a CLCW (CCSDS 232.0-B, 4.2), apart from those that are fixed. Flags are 0 or 1.
#[repr(C)]
#[derive(Clone, Copy)]
pub struct ClcwFieldsRecord {
    pub status: u32,
    /// The status field of the CLCW, 0 to 7, whose meaning is left to the mission.
    pub status_field: u8,
    /// The virtual channel id, 0 to 63.
    pub vcid: u8,
    pub no_rf: u8,
    pub no_bit_lock: u8,
    pub lockout: u8,
    pub wait: u8,
    pub retransmit: u8,
    /// The FARM-B counter, 0 to 3.
    pub farm_b: u8,
    /// The report value V(R).
    pub vr: u8,
}

/// Returns the CLCW that reports this FARM-1 for a virtual channel (CCSDS 232.0-B, 4.2).
///
/// The CLCW's status field is 0, and COP-1 is in effect. `vcid` is 0 to 63, and `no_rf` and `no_bit_lock` are 0 or 1.
/// If no FARM-1 has this record, the call fails as `tcrx_farm_step` does. It fails with BadVcid for another `vcid`, and
/// with BadFlag for another flag. If it fails, the word is 0.
#[unsafe(no_mangle)]
pub extern "C" fn tcrx_clcw(kept: FarmRecord, vcid: u8, no_rf: u8, no_bit_lock: u8) -> ClcwRecord
    ensures word { IfOk (clcw_or_status kept vcid no_rf no_bit_lock) (λ word. result ≡ record { status = code_of Status.Done; word = word }) }
    ensures refused { IfErr (clcw_or_status kept vcid no_rf no_bit_lock) (λ fault. result ≡ record { status = code_of fault; word = 0 }) }
{
    match word(kept, vcid, no_rf, no_bit_lock) {
        Ok(word) => ClcwRecord {
            status: code(Status::Done),
            word,
        },
        Err(fault) => no_word(fault),
    }
}

/// Returns the record of a call that fails with this status.
pub(crate) fn no_word(fault: Status) -> ClcwRecord
    ensures { result ≡ record { status = code_of fault; word = 0 } }
{
    ClcwRecord {
        status: code(fault),
        word: 0,
    }
}

fn word(kept: FarmRecord, vcid: u8, no_rf: u8, no_bit_lock: u8) -> Result<u32, Status>
    ensures { result ≡ clcw_or_status kept vcid no_rf no_bit_lock }
{
    let report = farm(kept)?.report();
    if vcid > 63 {
        return Err(Status::BadVcid);
    }
    Ok(clcw_word(&report, vcid, link(no_rf, no_bit_lock)?))
}

/// Returns the link with these flags, or BadFlag if one of them is neither 0 nor 1.
pub(crate) fn link(no_rf: u8, no_bit_lock: u8) -> Result<Link, Status>
    ensures { result ≡ link_of no_rf no_bit_lock }
{
    Ok(Link {
        no_rf: flag(no_rf)?,
        no_bit_lock: flag(no_bit_lock)?,
    })
}

/// Reads the fields of a CLCW of COP-1. Such a word has type 0, version 0, COP 1 and zeros in both spare fields.
///
/// For another word the call fails with NoClcw, and each other number of the record is 0.
#[unsafe(no_mangle)]
pub extern "C" fn tcrx_read_clcw(word: u32) -> ClcwFieldsRecord
    ensures status { (result.status ≡ code_of Status.Done) ↔ IsClcw word }
    ensures fields { IsClcw word → result ≡ fields_record (fields_of word) }
    ensures refused { (IsClcw word → ⊥) → result ≡ no_clcw }
{
    match read_clcw(word) {
        Some(fields) => ClcwFieldsRecord {
            status: code(Status::Done),
            status_field: fields.status,
            vcid: fields.vcid,
            no_rf: u8::from(fields.link.no_rf),
            no_bit_lock: u8::from(fields.link.no_bit_lock),
            lockout: u8::from(fields.lockout),
            wait: u8::from(fields.wait),
            retransmit: u8::from(fields.retransmit),
            farm_b: fields.farm_b,
            vr: fields.vr,
        },
        None => ClcwFieldsRecord {
            status: code(Status::NoClcw),
            status_field: 0,
            vcid: 0,
            no_rf: 0,
            no_bit_lock: 0,
            lockout: 0,
            wait: 0,
            retransmit: 0,
            farm_b: 0,
            vr: 0,
        },
    }
}
