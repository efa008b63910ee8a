//! The frame counts of telemetry frames.

use crate::tm::frame::{ErrorControl, TmFault, TmHeader, write_tm};
use std::alloc::{AllocError, Global};
use std::marker::Model;

/// The number of telemetry frames so far, modulo 256, for each spacecraft and for each of its eight virtual channels.
#[derive(Debug, Drop)]
pub struct Counts {
    masters: Vec<u8>,
    channels: Vec<u8>,
}

impl Model for Counts {
    ghost use Rattle.std.specs.Prelude.{◌≡◌, length};
    ghost use Rattle.tc_edges.specs.Tm.Counting.{Counted};

    ghost Value = { Counted };

    ghost view = { λ c. record { masters = c.masters.items; channels = c.channels.items } };

    ghost invariant = { λ c. (length c.masters.items ≡ 1024) × (length c.channels.items ≡ 8192) };
}

impl Counts {
    ghost use Rattle.std.specs.Prelude.{◌≡◌, None, unwrap_or, IfOk, IfErr, OnOk, OnErr};
    ghost use Rattle.tc_edges.specs.Tm.TmFrame.{tm_frame, tm_fault_of};
    ghost use Rattle.tc_edges.specs.Tm.Counting.{none_yet, next_header, frame_counted};

    /// Creates counts that are all 0. This allocates 9,216 bytes.
    pub fn new(alloc: Global) -> Result<Counts, AllocError>
        ensures { IfOk result (λ counts. counts ≡ none_yet) }
    {
        let masters = vec![in alloc; 0u8; 1024]?;
        let channels = vec![in alloc; 0u8; 8192]?;
        Ok(Counts { masters, channels })
    }

    /// Writes the next telemetry frame of a virtual channel with [`write_tm`], and advances both counts. If the frame
    /// can't be written, the counts don't change.
    ///
    /// The only allocation is the frame.
    pub fn next_frame(
        &mut self,
        alloc: Global,
        error: ErrorControl,
        scid: u16,
        vcid: u8,
        control: [u8; 4],
        length: usize,
    ) -> Result<Vec<u8>, TmFault>
        ensures frame { IfOk result (λ frame. frame.items ≡ tm_frame error (next_header self.old scid vcid) control length) }
        ensures counted { OnOk result (self.new ≡ frame_counted self.old scid vcid) }
        ensures unchanged { OnErr result (self.new ≡ self.old) }
        ensures written { OnOk result (tm_fault_of error scid vcid length ≡ None) }
        ensures refused { IfErr result (λ fault. fault ≡ unwrap_or (tm_fault_of error scid vcid length) TmFault.NoMemory) }
    {
        if scid > 1023 {
            return Err(TmFault::BadScid);
        }
        if vcid > 7 {
            return Err(TmFault::BadVcid);
        }
        let master = usize::from(scid);
        let channel = 8 * master + usize::from(vcid);
        let header = TmHeader {
            scid,
            vcid,
            master_count: self.masters[master],
            channel_count: self.channels[channel],
        };
        let frame = write_tm(alloc, error, &header, control, length)?;
        self.masters[master] = header.master_count.wrapping_add(1);
        self.channels[channel] = header.channel_count.wrapping_add(1);
        Ok(frame)
    }
}
