//! A script whose lines are carried out in order. Its station is created at the first operation.

ghost use Rattle.std.specs.Prelude.{◌≤◌};

use crate::founding::found;
use crate::staffed::StaffedStation;
use std::alloc::Global;
use std::sync::Wait;
use tc_rack::{Answer, Backend, Configuration, Operation, Stage};
use tc_text::Reason;

/// The progress of a script whose operations are carried out one after the other.
pub(crate) type Session = Stage<StaffedStation>;

/// The backend that creates the station of the spacecraft with this id, with the station's operator and its watchers.
#[derive(Drop)]
pub(crate) struct StationBackend<'rt, T: Wait> {
    pub(crate) rt: &'rt T,
    pub(crate) scid: u16,
    ghost within: { scid ≤ 1023 },
}

impl<T: Wait> Backend for StationBackend<'_, T> {
    ghost use Rattle.tc_cli.specs.Staffed.{AreAsCounted, IsStaffedAnswer, IsNewlyStaffed};

    type Founded = StaffedStation;

    ghost is_new = { λ f. IsNewlyStaffed f.scid };

    ghost answers = { IsStaffedAnswer };

    ghost spares = { AreAsCounted };

    // This runs once for a script, so its code isn't inlined into the code that runs for each line.
    #[cold]
    #[inline(never)]
    fn found(&self, alloc: Global, list: Configuration) -> Result<StaffedStation, Reason> {
        let vcids = list.vcids(alloc)?;
        StaffedStation::new(self.rt, alloc, found(alloc, self.scid, list)?, vcids)
    }

    fn operate(
        &self,
        staffed: &mut StaffedStation,
        operation: Operation,
    ) -> Result<Answer, Reason> {
        match operation {
            Operation::Frame(octets) => staffed.bring(self.rt, octets.as_slice()),
            Operation::Release(vcid) => staffed.release(self.rt, vcid),
            Operation::Take(vcid, apid) => staffed.take(self.rt, vcid, apid),
            Operation::Unit(vcid, map) => staffed.unit(self.rt, vcid, map),
            Operation::Clcw(vcid) => Ok(staffed.clcw(vcid)),
        }
    }
}
