//! Calls of each kind, one after the other.

use crate::calls::Call::{Again, Bypassing, Clcw, Next, Release, Take, Unlock};
use crate::filler::{
    CONTINUING, DROPPED, FIRST, Field, Filler, Items, Kind, LAST, NOTHING, ONE, PACKETS,
    UNSEGMENTED,
};
use crate::form::{Form, Oldest};
use crate::plan::{CALLED, PLAIN};
use crate::score::Score;
use anyhow::Result;

// The number of the chosen MAP, and the application of the packets.
const CHOSEN: u8 = 0;

const APID: u16 = 1;

const PACKET: Oldest = Oldest::Packet(APID);

// An unsegmented field with one packet of seven octets, and one with two.
const ONE_PACKET: Field = (Some(UNSEGMENTED | PACKETS), 0, 7);

const TWO_PACKETS: Field = (Some(UNSEGMENTED | PACKETS), 0, 14);

// Segments of a unit that is one packet of 26 octets. The unit comes in segments of 6, 14, 2, 2 and 2 octets, or of 6,
// 14 and 6.
const BEGUN: Field = (Some(FIRST | PACKETS), 19, 6);

const FOURTEEN: Field = (Some(CONTINUING | PACKETS), 19, 14);

const TWO: Field = (Some(CONTINUING | PACKETS), 19, 2);

const LAST_TWO: Field = (Some(LAST | PACKETS), 19, 2);

const LAST_SIX: Field = (Some(LAST | PACKETS), 19, 6);

// Units of the chosen MAP.
const UNIT: Field = (Some(UNSEGMENTED | CHOSEN), 0, 7);

const UNIT_BEGUN: Field = (Some(FIRST | CHOSEN), 19, 6);

const UNIT_ENDED: Field = (Some(LAST | CHOSEN), 19, 2);

// A data field of a plain channel. It is one packet.
const PLAIN_FIELD: Field = (None, 1_012, 1_019);

// The number of frames that are brought to each channel before its calls. All calls are made twice, and these frames
// come before each time. The calls are 34 events on the first channel and five on the plain one. So during the second
// time the first channel has more than 64 events and fewer than 128, and the plain one has more than 32 and fewer than
// 64. The list of a kept journal's events doubles its room when it is full, so it doesn't grow during the second time.
const BEFORE: u8 = 20;

// A call on a channel.
#[derive(Clone, Copy)]
enum Call {
    // A Type-AD frame that is accepted.
    Next(Field),
    // A Type-AD frame that is discarded because its N(S) is one less than the expected one.
    Again(Field),
    // A Type-BD frame, with the numbers of items of its unit that are queued and dropped, and the end of its printed
    // line.
    Bypassing(Field, Items, &'static str),
    // The control command Unlock.
    Unlock,
    // A release, with the numbers of items of its unit that are queued and dropped, and the end of its printed line.
    Release(Items, &'static str),
    // Takes of a number of items, with the beginning of the printed line.
    Take(Oldest, u16, &'static str),
    Clcw,
}

// The calls on the first channel.
static FIRST_CALLS: [Call; 30] = [
    // Calls that end no unit.
    Unlock,
    Again(ONE_PACKET),
    Clcw,
    // An unsegmented unit, which is cut into packets.
    Next(ONE_PACKET),
    Release(ONE, ", one packet queued"),
    Take(PACKET, 1, "take"),
    Bypassing(ONE_PACKET, ONE, ", one packet queued"),
    Bypassing(TWO_PACKETS, (2, 0), ", two packets queued"),
    Bypassing(ONE_PACKET, ONE, ", one packet queued"),
    Bypassing(ONE_PACKET, DROPPED, ", one packet dropped"),
    Take(PACKET, 4, "take"),
    // Segments of a unit that is one packet, in Type-BD frames. The memory of the open run grows when the calls are
    // made for the first time. It is kept, so it doesn't grow again the second time.
    Bypassing(BEGUN, NOTHING, ", first segment"),
    Bypassing(FOURTEEN, NOTHING, ", next segment"),
    Bypassing(TWO, NOTHING, ", next segment"),
    Bypassing(TWO, NOTHING, ", next segment"),
    Bypassing(LAST_TWO, ONE, ", last segment, one packet queued"),
    Take(PACKET, 1, "take"),
    // Segments of a unit that is one packet, in Type-AD frames. They go through the buffer.
    Next(BEGUN),
    Next(FOURTEEN),
    Next(LAST_SIX),
    Release(NOTHING, ", first segment"),
    Release(NOTHING, ", next segment"),
    Release(ONE, ", last segment, one packet queued"),
    Take(PACKET, 1, "take"),
    // Units of the chosen MAP.
    Bypassing(UNIT, ONE, ", whole unit queued"),
    Next(UNIT),
    Release(ONE, ", whole unit queued"),
    Bypassing(UNIT_BEGUN, NOTHING, ", first segment"),
    Bypassing(UNIT_ENDED, ONE, ", whole unit queued"),
    Take(Oldest::Unit(CHOSEN), 3, "take_unit"),
];

// The calls on a plain channel.
static PLAIN_CALLS: [Call; 4] = [
    Bypassing(PLAIN_FIELD, ONE, " on a plain channel, one packet queued"),
    Next(PLAIN_FIELD),
    Release(ONE, " on a plain channel, one packet queued"),
    Take(PACKET, 2, "take"),
];

/// Makes each kind of call twice, and prints a line after each call.
pub(crate) fn print<F: Form, R: AllocGlobal + Print>(rt: &R) -> Result<()> {
    let mut first = Filler::new(F::made(rt.alloc(), CALLED.settings(rt.alloc(), 1)?)?);
    let mut plain = Filler::new(F::made(rt.alloc(), PLAIN.settings(rt.alloc(), 1)?)?);
    first.apid = APID;
    plain.apid = APID;
    print_once(rt, &mut first, &mut plain)?;
    print_once(rt, &mut first, &mut plain)
}

fn print_once<F: Form>(
    rt: &impl Print,
    first: &mut Filler<F>,
    plain: &mut Filler<F>,
) -> Result<()> {
    for _ in 0..BEFORE {
        make(first, Unlock)?;
        make(plain, Unlock)?;
    }
    println!(rt; "begun")?;
    print_each(rt, first, &FIRST_CALLS)?;
    print_each(rt, plain, &PLAIN_CALLS)
}

fn print_each<F: Form>(rt: &impl Print, filler: &mut Filler<F>, calls: &[Call]) -> Result<()> {
    for call in calls {
        let (name, end) = make(filler, *call)?;
        println!(rt; "{name}{end}")?;
    }
    Ok(())
}

// Makes a call, and returns the two parts of the line that is printed for it.
fn make<F: Form>(filler: &mut Filler<F>, call: Call) -> Result<(&'static str, &'static str)> {
    match call {
        Next(field) => {
            filler.bring(Kind::Next, field, NOTHING)?;
            Ok(("frame, Type-AD", ", accepted"))
        }
        Again(field) => {
            filler.bring(Kind::Again, field, NOTHING)?;
            Ok(("frame", ", discarded"))
        }
        Bypassing(field, items, end) => {
            filler.bring(Kind::Bypassing, field, items)?;
            Ok(("frame, Type-BD", end))
        }
        Unlock => {
            filler.bring(Kind::Unlock, (Some(0), 0, 0), NOTHING)?;
            Ok(("frame", ", Unlock"))
        }
        Release(items, end) => {
            filler.release(items)?;
            Ok(("release", end))
        }
        Take(oldest, count, name) => {
            let mut score = Score { sum: 0 };
            for _ in 0..count {
                filler.channel.take_oldest(oldest, &mut score)?;
            }
            Ok((name, ""))
        }
        Clcw => {
            let _ = filler.channel.word_and_events();
            Ok(("clcw", ""))
        }
    }
}
