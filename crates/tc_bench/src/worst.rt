//! A single call of a channel in rooms, after the calls that make it cost most.

use crate::filler::{
    BODY, CONTINUING, FIRST, Field, Filler, Kind, LARGEST, LAST, NOTHING, ONE, PACKETS, UNSEGMENTED,
};
use crate::plan::Plan;
use crate::seen::{
    call_clcw, call_drop_oldest, call_drop_oldest_unit, call_frame, call_new, call_oldest,
    call_oldest_unit, call_queued, call_release, call_report, call_take, call_take_unit,
    call_units,
};
use anyhow::{Result, anyhow};
use std::alloc::Global;
use tc_channel::{Items, QueueSetting};
use tc_fixed::FixedChannel;
use tc_link::read_frame;

// The last chosen MAP.
const CHOSEN: u8 = 62;

// The largest number of octets of a unit.
const LARGEST_UNIT: usize = 65_542;

// The number of packets of seven octets that the queue of the last application holds. One data field may have this
// number of packets.
const ROOM: u16 = 145;

// A data field full of the smallest packets, as an unsegmented unit.
const PACKETS_FIELD: Field = (Some(UNSEGMENTED | PACKETS), 0, BODY);

// A data field full of the smallest packets, as the first segment of a unit.
const FIRST_FIELD: Field = (Some(FIRST | PACKETS), 0, BODY);

// The last segment of a largest unit that is full of the smallest packets.
const PACKETS_END: Field = (Some(LAST | PACKETS), 0, 390);

// The last segment of a largest unit that is one packet.
const PACKET_END: Field = (Some(LAST | PACKETS), LARGEST, 390);

// The last segment of a largest unit that is queued whole.
const WHOLE_END: Field = (Some(LAST | CHOSEN), LARGEST, 390);

// A channel, and room for the item that is taken. All packets are sent to the channel's last application.
#[derive(Drop)]
struct Caller {
    filler: Filler<FixedChannel>,
    taken: Vec<u8>,
}

impl Caller {
    // Creates a channel with `queues` packet queues, the last of which has more room. Each MAP is chosen, except the
    // MAP of the packets.
    fn new(alloc: Global, queues: u16) -> Result<Caller> {
        let plan = Plan {
            buffer: 64,
            apid: 0,
            queues: (queues, 1),
            maps: (CHOSEN + 1, 1),
            segmented: true,
        };
        let mut settings = plan.settings(alloc, 1)?;
        let apid = queues.saturating_sub(1);
        let mut list = settings.queues.into_vec();
        list.pop();
        list.push(QueueSetting {
            apid,
            capacity: ROOM,
        })?;
        settings.queues = Items::from(list);
        let taken = vec![in alloc; 0; LARGEST_UNIT]?;
        let mut filler = Filler::new(call_new(alloc, settings)?);
        filler.apid = apid;
        Ok(Caller { filler, taken })
    }

    // If the field is the last segment of a largest unit, brings the segments before it. Otherwise brings nothing.
    fn open(&mut self, kind: Kind, (header, length, _): Field) -> Result<()> {
        let header = header.unwrap_or(0);
        if header & UNSEGMENTED != LAST {
            return Ok(());
        }
        let mut flags = FIRST;
        self.filler.from = 0;
        for _ in 0..64 {
            let field = (Some(flags | header % 64), length, BODY);
            self.filler.bring(kind, field, NOTHING)?;
            self.filler.from = self.filler.from.wrapping_add(usize::from(BODY));
            flags = CONTINUING;
        }
        Ok(())
    }

    // Brings the segments before this field, and then makes the measured call, which brings the frame with this field.
    // If the kind is `Released`, the frame is brought before the measured call, and that call releases the field.
    // Returns the number of items for queues, including those for which there was no room.
    fn items(&mut self, kind: Kind, field: Field) -> Result<u64> {
        self.open(kind, field)?;
        let delivery = if let Kind::Released = kind {
            self.filler.bring(Kind::Next, field, NOTHING)?;
            call_release(&mut self.filler.channel)?
        } else {
            let octets = self.filler.octets(kind, field);
            call_frame(&mut self.filler.channel, &read_frame(&octets)?).delivery
        };
        Ok(u64::from(delivery.queued) + u64::from(delivery.dropped))
    }

    // Makes the call with this name, and returns its answer as a number.
    fn answer(&mut self, name: &str) -> Result<u64> {
        match name {
            "frame_buffered" => self.items(Kind::Next, FIRST_FIELD),
            "frame_field" => self.items(Kind::Bypassing, PACKETS_FIELD),
            "frame_packets" => self.items(Kind::Bypassing, PACKETS_END),
            "frame_whole" => self.items(Kind::Bypassing, WHOLE_END),
            "release_field" => self.items(Kind::Released, PACKETS_FIELD),
            "release_packets" => self.items(Kind::Released, PACKETS_END),
            "release_whole" => self.items(Kind::Released, WHOLE_END),
            _ => self.answer_full(name),
        }
    }

    // Queues a largest packet for the last application and a largest unit of the last chosen MAP. Then makes the call
    // with this name.
    fn answer_full(&mut self, name: &str) -> Result<u64> {
        for last in [PACKET_END, WHOLE_END] {
            self.open(Kind::Bypassing, last)?;
            self.filler.bring(Kind::Bypassing, last, ONE)?;
        }
        let apid = self.filler.apid;
        let channel = &mut self.filler.channel;
        let count = match name {
            "take" => call_take(channel, apid, &mut self.taken)?,
            "take_unit" => call_take_unit(channel, CHOSEN, &mut self.taken)?,
            "drop_oldest" => usize::from(call_drop_oldest(channel, apid)),
            "drop_oldest_unit" => usize::from(call_drop_oldest_unit(channel, CHOSEN)),
            "oldest" => length(call_oldest(channel, apid)),
            "oldest_unit" => length(call_oldest_unit(channel, CHOSEN)),
            "queued" => call_queued(channel, apid).unwrap_or(0),
            "units" => call_units(channel, CHOSEN).unwrap_or(0),
            "clcw" => call_clcw(channel) as usize,
            "report" => usize::from(call_report(channel).farm_b),
            _ => return Err(anyhow!("no such call: {name}")),
        };
        Ok(count as u64)
    }
}

fn length(octets: Option<&[u8]>) -> usize {
    octets.unwrap_or(&[]).len()
}

/// Makes a call on a channel of `queues` queues in its most expensive case, and prints its answer.
pub(crate) fn print<R: AllocGlobal + Print>(rt: &R, name: &str, queues: u16) -> Result<()> {
    let answer = answer_of(rt.alloc(), queues, name)?;
    println!(rt; "{name} {answer}")?;
    Ok(())
}

// Makes the call with this name, and returns its answer as a number. The caller with its channel is dropped only here,
// because each place at which it is dropped is proved separately.
fn answer_of(alloc: Global, queues: u16, name: &str) -> Result<u64> {
    let mut caller = Caller::new(alloc, queues)?;
    caller.answer(name)
}
