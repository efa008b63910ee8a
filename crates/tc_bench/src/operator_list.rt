//! A station with one operator.

ghost use Rattle.tc_station.specs.Tally.{IsOurs};

use crate::score::Score;
use crate::seen::NO_FLAG;
use crate::sender::{Sender, Sent, second};
use crate::station::{APID, new_station};
use anyhow::{Result, anyhow};
use std::alloc::Global;
use std::sync::Wait;
use tc_channel::Channel;
use tc_station::{Operator, Station};

/// A station with one operator, whose answers are added to a score.
#[derive(Drop)]
pub(crate) struct OperatorList {
    station: Station,
    operator: Operator,
    ghost ours: { IsOurs station operator },
}

impl OperatorList {
    pub(crate) fn new(alloc: Global, vcids: &[u8]) -> Result<OperatorList> {
        let mut station = new_station(alloc, vcids)?;
        let Some(operator) = station.operators(1)?.pop() else {
            return Err(anyhow!("no operator"));
        };
        Ok(OperatorList { station, operator })
    }

    // Brings a frame.
    fn bring(&mut self, rt: &impl Wait, octets: &[u8], score: &mut Score) -> Result<()> {
        let brought = self.station.bring(rt, &mut self.operator, octets)?;
        score.add_reply(brought.vcid, brought.reply);
        Ok(())
    }

    /// Makes a round. It brings the sender's Type-AD frame with the N(S) `number`, and a second frame. Then it reads
    /// the CLCW through a new watcher, releases the oldest data field, and takes the oldest packet.
    pub(crate) fn make_round(
        &mut self,
        rt: &impl Wait,
        sender: &Sender,
        number: u8,
        score: &mut Score,
    ) -> Result<()> {
        self.bring(rt, sender.octets(Sent::Sequenced(number)), score)?;
        self.bring(rt, sender.octets(second(number)), score)?;
        let mut watcher = self.station.watcher(rt, sender.vcid)?;
        score.add(u64::from(self.station.watch(&mut watcher, NO_FLAG)));
        score.add_delivery(self.station.release(rt, &mut self.operator, sender.vcid)?);
        let packet = self
            .station
            .take(rt, &mut self.operator, sender.vcid, APID)?;
        score.add_packet(&packet);
        Ok(())
    }

    /// Closes the station.
    pub(crate) fn close(self, alloc: Global) -> Result<Vec<Channel>> {
        let OperatorList { station, operator } = self;
        let operators = vec![in alloc; operator]?;
        Ok(station.close(operators)?)
    }
}
