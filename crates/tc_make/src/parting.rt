//! Units that are divided into segments.

use crate::fault::Reason;
use crate::frames::make_frame;
use std::alloc::Global;
use tc_edges::write::{piece, segment_count, segment_header};
use tc_link::Header;
use tc_packet::LARGEST_UNIT;

/// A unit that is to be sent in segments, in Type-AD frames of one virtual channel.
#[derive(Clone, Copy, Debug, PartialEq, Eq)]
pub struct Parting<'a> {
    pub scid: u16,
    pub vcid: u8,
    /// The N(S) of the first frame.
    pub ns: u8,
    pub map: u8,
    /// The number of octets of the unit that each segment except the last carries. The last segment carries the octets
    /// that are left.
    pub size: u16,
    pub unit: &'a [u8],
}

impl<'a> Parting<'a> {
    ghost use Rattle.std.specs.Prelude.{◌≡◌, ◌<◌, ◌≤◌, None, length, unwrap_or, IfOk, IfErr, OnOk};
    ghost use Rattle.tc_edges.specs.Write.Parts.{segments_needed};
    ghost use Rattle.tc_make.specs.Parting.{IsFrameAt, parting_reason_of};

    /// Returns the number of frames that the unit is divided into.
    ///
    /// A segment carries 1 to 1,018 octets, and a unit has 1 to 65,542.
    pub fn count(&self) -> Result<usize, Reason>
        ensures count { IfOk result (λ count. count ≡ segments_needed self.now.size (length self.now.unit.now)) }
        ensures parted { OnOk result (parting_reason_of self.now ≡ None) }
        ensures refused { IfErr result (λ reason. parting_reason_of self.now ≡ Some reason) }
    {
        if self.scid > 1023 {
            return Err(Reason::BadScid);
        }
        if self.vcid > 63 {
            return Err(Reason::BadVcid);
        }
        if self.map > 63 {
            return Err(Reason::BadMap);
        }
        if self.size == 0 || self.size > 1018 {
            return Err(Reason::BadSize);
        }
        if self.unit.is_empty() {
            return Err(Reason::NoData);
        }
        if self.unit.len() > LARGEST_UNIT {
            return Err(Reason::TooMuchData);
        }
        Ok(segment_count(usize::from(self.size), self.unit.len()))
    }

    /// Makes the frame at this place, counted from 0. There are [`Parting::count`] frames.
    ///
    /// Only the frame and its data field are allocated.
    pub fn frame(&self, alloc: Global, place: usize) -> Result<Vec<u8>, Reason>
        requires parted { parting_reason_of self.now ≡ None }
        requires there { place < segments_needed self.now.size (length self.now.unit.now) }
        ensures frame { IfOk result (λ frame. IsFrameAt self.now place frame.items) }
        ensures refused { IfErr result (λ reason. reason ≡ Reason.NoMemory) }
    {
        let header = Header {
            bypass: false,
            control: false,
            scid: self.scid,
            vcid: self.vcid,
            ns: self.ns.wrapping_add((place % 256) as u8),
        };
        let size = usize::from(self.size);
        let segment = segment_header(self.map, place, segment_count(size, self.unit.len()));
        make_frame(alloc, &header, Some(segment), piece(self.unit, size, place))
    }
}
