//! Filling a channel row by row. A row brings pieces of one kind, each for a key, which is an application or a MAP.

use crate::calls;
use crate::filler::{
    CONTINUING, DROPPED, FIRST, Filler, Items, Kind, LARGEST, LAST, NOTHING, ONE, PACKETS,
    UNSEGMENTED,
};
use crate::form::Form;
use crate::plan::{LIMITED, MANY, PLAIN, Plan, SMALL};
use anyhow::{Result, anyhow};
use tc_channel::{Channel, CountingChannel};
use tc_fixed::{FixedChannel, Limits, MapLimit, storage_with_limits};

// The piece that a row brings for a key.
#[derive(Clone, Copy)]
enum Piece {
    // The largest packet that fits a data field without a segment header, for the application.
    Plain(Kind),
    // An unsegmented packet of seven octets for the application.
    Packet,
    // A segment on the MAP, with its sequence flags and its number of octets.
    Segment(Kind, u8, u16),
    // An open run on the MAP, with as many octets as the largest unit.
    Run(Kind),
    // The largest packet for the application, or the largest unit on the MAP. It comes in all its segments, and the
    // last segment is empty.
    LargestPacket,
    LargestUnit,
}

// A row: its piece, its first key and its number of keys, the number of its turns, and the numbers of items that each
// turn queues and drops. Each turn brings the piece for the next key. The first key follows the last one.
type Row = (Piece, (u16, u16), u16, Items);

// A unit of one segment, segments of Type-BD that begin, continue and end a unit, and a first segment that stays in the
// buffer.
const UNIT: Piece = Piece::Segment(Kind::Bypassing, UNSEGMENTED, 7);

const BEGUN: Piece = Piece::Segment(Kind::Bypassing, FIRST, 1_018);

const GONE_ON: Piece = Piece::Segment(Kind::Bypassing, CONTINUING, 1);

const ENDED: Piece = Piece::Segment(Kind::Bypassing, LAST, 0);

const BUFFERED: Piece = Piece::Segment(Kind::Next, FIRST, 1_018);

// Returns rows that fill the queues and the buffer of a plain channel.
fn plain_rows(plan: &Plan) -> [Row; 2] {
    let (queues, packets) = plan.queues;
    let packets = queues.saturating_mul(packets);
    let fields = u16::from(plan.buffer);
    [
        (Piece::Plain(Kind::Bypassing), (0, queues), packets, ONE),
        (Piece::Plain(Kind::Next), (0, 1), fields, NOTHING),
    ]
}

// Frames of a hostile sender, for the channel of `MANY`, which has 70 queues of two packets and three chosen MAPs of
// three units. Each frame must get the answer that the model gives.
static HOSTILE_ROWS: [Row; 16] = [
    // A thousand first segments come over 16 MAPs. Each begins the run of its MAP anew, and no run ends.
    (BEGUN, (0, 16), 1_000, NOTHING),
    // Packets come until the queues are full, then for full queues, and then for no queue. Units come until their
    // queues are full, and then for full queues.
    (Piece::Packet, (0, 70), 140, ONE),
    (Piece::Packet, (0, 70), 140, DROPPED),
    (Piece::Packet, (70, 1), 1, DROPPED),
    (UNIT, (0, 3), 9, ONE),
    (UNIT, (0, 3), 9, DROPPED),
    // Each MAP of each service gets a run of as many octets as a unit may have. One more octet drops the run. A last
    // segment that comes on Type-BD after that ends nothing.
    (Piece::Run(Kind::Released), (0, 64), 64, NOTHING),
    (Piece::Run(Kind::Bypassing), (0, 64), 64, NOTHING),
    (GONE_ON, (0, 64), 64, NOTHING),
    (ENDED, (0, 64), 64, NOTHING),
    (
        Piece::Segment(Kind::Released, CONTINUING, 1),
        (0, 64),
        64,
        NOTHING,
    ),
    // Two runs have as many octets as a unit may have, and each is dropped when it ends. Then comes a run that never
    // ends.
    (Piece::Run(Kind::Bypassing), (0, 1), 1, NOTHING),
    (ENDED, (0, 1), 1, DROPPED),
    (Piece::Run(Kind::Bypassing), (63, 1), 1, NOTHING),
    (ENDED, (63, 1), 1, DROPPED),
    (BEGUN, (63, 1), 1, NOTHING),
];

// Returns rows that fill a channel of this plan. They fill the packet queues with `packet` and the unit queues with
// largest units, open a run on each MAP of each service, and fill the buffer. The last rows then end two of the runs,
// and bring a packet for a full queue. `ended` has the numbers of items that the end of a run queues and drops. Both
// are 0 if a limit has dropped the run.
fn filling_rows(plan: &Plan, packet: Piece, ended: Items) -> [Row; 8] {
    let (queues, packets) = plan.queues;
    let packets = queues.saturating_mul(packets);
    let maps = u16::from(plan.maps.0);
    let units = maps.saturating_mul(plan.maps.1);
    [
        (packet, (0, queues), packets, ONE),
        (Piece::LargestUnit, (0, maps), units, ONE),
        (Piece::Run(Kind::Released), (0, 64), 64, NOTHING),
        (Piece::Run(Kind::Bypassing), (0, 64), 64, NOTHING),
        (BUFFERED, (63, 1), u16::from(plan.buffer), NOTHING),
        (ENDED, (0, 1), 1, ended),
        (ENDED, (63, 1), 1, ended),
        (Piece::Packet, (0, 1), 1, DROPPED),
    ]
}

// Creates the channel of a plan, prints the bound of its memory, and brings these rows to it.
fn print<F: Form, R: AllocGlobal + Print>(rt: &R, plan: &Plan, rows: &[Row]) -> Result<()> {
    let settings = plan.settings(rt.alloc(), 1)?;
    let (name, octets) = F::memory(&settings);
    println!(rt; "{name} {octets}")?;
    print_rows(rt, F::made(rt.alloc(), settings)?, rows)
}

// Creates a channel in rooms within limits, and fills it. The limit is 1,024 octets for the MAP of packets, and 0 for
// each other MAP.
fn print_limited<R: AllocGlobal + Print>(rt: &R) -> Result<()> {
    let settings = LIMITED.settings(rt.alloc(), 1)?;
    let limit = MapLimit {
        map: PACKETS,
        octets: 1_024,
    };
    let maps = Vec::from_slice(rt.alloc(), &[limit])?.into();
    let limits = Limits { others: 0, maps };
    println!(rt; "storage {}", storage_with_limits(&settings, &limits))?;
    let channel = FixedChannel::with_limits(rt.alloc(), settings, limits)?;
    print_rows(rt, channel, &filling_rows(&LIMITED, Piece::Packet, NOTHING))
}

fn print_rows<F: Form>(rt: &impl Print, channel: F, rows: &[Row]) -> Result<()> {
    println!(rt; "made")?;
    let mut filler = Filler::new(channel);
    for row in rows {
        play(&mut filler, *row)?;
    }
    println!(rt; "full")?;
    Ok(())
}

fn play<F: Form>(filler: &mut Filler<F>, (piece, (first, keys), count, items): Row) -> Result<()> {
    for turn in 0..count {
        let key = first.wrapping_add(turn % keys.max(1));
        bring_piece(filler, piece, key, items)?;
    }
    Ok(())
}

fn bring_piece<F: Form>(
    filler: &mut Filler<F>,
    piece: Piece,
    key: u16,
    items: Items,
) -> Result<()> {
    let (apid, map) = match piece {
        Piece::Plain(_) | Piece::Packet | Piece::LargestPacket => (key, PACKETS),
        _ => (0, (key % 64) as u8),
    };
    filler.apid = apid;
    match piece {
        Piece::Plain(kind) => filler.bring(kind, (None, 1_012, 1_019), items),
        Piece::Packet => filler.bring(Kind::Bypassing, (Some(UNSEGMENTED | map), 0, 7), items),
        Piece::Segment(kind, flags, count) => {
            filler.bring(kind, (Some(flags | map), LARGEST, count), items)
        }
        Piece::Run(kind) => filler.open(kind, map),
        Piece::LargestPacket | Piece::LargestUnit => {
            filler.open(Kind::Bypassing, map)?;
            filler.bring(Kind::Bypassing, (Some(LAST | map), LARGEST, 0), items)
        }
    }
}

// Runs the action that a word names for a channel of this form.
fn fill<F: Form, R: AllocGlobal + Print>(rt: &R, word: &str) -> Result<()> {
    let mut plan = PLAIN;
    match word {
        "plain" => {}
        "plain_7" => plan.queues = (7, 1),
        "plain_8" => plan.queues = (8, 1),
        "plain_63" => plan.queues = (63, 1),
        "one" => plan = SMALL,
        "many" => plan = MANY,
        "calls" => return calls::print::<F, R>(rt),
        _ => return Err(anyhow!("nothing to fill has that name: {word}")),
    }
    if plan.segmented {
        print::<F, R>(
            rt,
            &plan,
            &filling_rows(&plan, Piece::LargestPacket, DROPPED),
        )
    } else {
        print::<F, R>(rt, &plan, &plain_rows(&plan))
    }
}

/// Runs the action that this word names.
pub(crate) fn obey<R: AllocGlobal + Print>(rt: &R, word: &str) -> Result<()> {
    match (word, word.strip_prefix("fixed_")) {
        ("recorded", _) => calls::print::<Channel, R>(rt),
        ("fixed_hostile", _) => print::<FixedChannel, R>(rt, &MANY, &HOSTILE_ROWS),
        ("fixed_limited", _) => print_limited(rt),
        (_, Some(plan)) => fill::<FixedChannel, R>(rt, plan),
        (_, None) => fill::<CountingChannel, R>(rt, word),
    }
}
