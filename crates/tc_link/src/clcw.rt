//! The communications link control word.

ghost use Rattle.std.specs.Prelude.{◌≡◌, ◌<◌, ◌↔◌, IsSome, IfSome};
ghost use Rattle.tc_link.specs.Clcw.{word_of, IsClcw, fields_of};

use crate::farm::Report;

/// The flags of a CLCW that report the state of the physical link.
#[derive(Clone, Copy, Debug, PartialEq, Eq)]
pub struct Link {
    /// No RF Available.
    pub no_rf: bool,
    /// No Bit Lock.
    pub no_bit_lock: bool,
}

/// Returns the CLCW that reports `report` and `link` for a virtual channel (CCSDS 232.0-B, 4.2).
///
/// The status field is 0, and COP-1 is in effect.
pub fn clcw_word(report: &Report, vcid: u8, link: Link) -> u32
    requires vcid { vcid < 64 }
    requires farm_b { report.now.farm_b < 4 }
    ensures { result ≡ word_of report.now vcid link }
{
    (1 << 24)
        + u32::from(vcid) * (1 << 18)
        + u32::from(link.no_rf) * (1 << 15)
        + u32::from(link.no_bit_lock) * (1 << 14)
        + u32::from(report.lockout) * (1 << 13)
        + u32::from(report.wait) * (1 << 12)
        + u32::from(report.retransmit) * (1 << 11)
        + u32::from(report.farm_b) * (1 << 9)
        + u32::from(report.vr)
}

/// The fields of a CLCW (CCSDS 232.0-B, 4.2), apart from those that are fixed.
#[derive(Clone, Copy, Debug, PartialEq, Eq)]
pub struct ClcwFields {
    /// The status field, 0 to 7, whose meaning is left to the mission.
    pub status: u8,
    pub vcid: u8,
    pub link: Link,
    pub lockout: bool,
    pub wait: bool,
    pub retransmit: bool,
    pub farm_b: u8,
    pub vr: u8,
}

/// Reads a word that is a CLCW of COP-1: its type and version are 0, its COP is 1, and both spares are 0. The call
/// returns `None` for any other word.
pub fn read_clcw(word: u32) -> Option<ClcwFields>
    ensures variant { IsSome result ↔ IsClcw word }
    ensures fields { IfSome result (λ fields. fields ≡ fields_of word) }
{
    if word >> 29 != 0 || (word >> 24) & 3 != 1 || (word >> 16) & 3 != 0 || (word >> 8) & 1 != 0 {
        return None;
    }
    Some(ClcwFields {
        status: ((word >> 26) & 7) as u8,
        vcid: ((word >> 18) & 63) as u8,
        link: Link {
            no_rf: (word >> 15) & 1 == 1,
            no_bit_lock: (word >> 14) & 1 == 1,
        },
        lockout: (word >> 13) & 1 == 1,
        wait: (word >> 12) & 1 == 1,
        retransmit: (word >> 11) & 1 == 1,
        farm_b: ((word >> 9) & 3) as u8,
        vr: (word & 255) as u8,
    })
}
