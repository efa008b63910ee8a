//! Channels without a station, and their answers to the operations of a script.

ghost use Rattle.std.specs.Prelude.{◌<◌, IfSome, length};

use std::alloc::Global;
use std::io;
use std::io::Write;
use std::marker::PhantomData;
use tc_channel::{ReleaseFault, TakeFault, TakeUnitFault};
use tc_link::read_frame;
use tc_rack::{Answer, Backend, Configuration, Operation, Refusal};
use tc_station::LocateFault;
use tc_text::Reason;
use test_parts::Form;

/// The number of virtual channel ids.
const IDS: u8 = 64;

/// The backend that creates channels of a form for the spacecraft with this id, and operates them. The calls of `Form`
/// have no contracts, so nothing is proved about its channels.
#[derive(Drop)]
pub(crate) struct LoneBackend<C> {
    scid: u16,
    form: PhantomData<C>,
}

impl<C: Form> LoneBackend<C> {
    pub(crate) fn new(scid: u16) -> LoneBackend<C> {
        LoneBackend {
            scid,
            form: PhantomData,
        }
    }
}

impl<C: Form> Backend for LoneBackend<C> {
    ghost use Rattle.std.specs.Prelude.{⊤};

    type Founded = Lone<C>;

    ghost is_new = { λ _ _ _. ⊤ };

    ghost answers = { λ _ _ _ _. ⊤ };

    ghost spares = { λ _ _. ⊤ };

    fn found(&self, alloc: Global, list: Configuration) -> Result<Lone<C>, Reason> {
        if list.channels().is_empty() {
            return Err(Reason::NoChannel);
        }
        match Lone::new(alloc, self.scid, list) {
            Some(channels) => Ok(channels),
            None => Err(Reason::NoMemory),
        }
    }

    fn operate(&self, channels: &mut Lone<C>, operation: Operation) -> Result<Answer, Reason> {
        match channels.operate(operation) {
            Some(answer) => Ok(answer),
            None => Err(Reason::NoMemory),
        }
    }
}

/// The virtual channels of one spacecraft, each of the same form, without locks. The calls return `None` if memory runs
/// out.
#[derive(Drop)]
pub(crate) struct Lone<C: Form> {
    alloc: Global,
    scid: u16,
    channels: Vec<C>,
}

impl<C: Form> Lone<C> {
    // Creates a channel for each of the settings.
    fn new(alloc: Global, scid: u16, list: Configuration) -> Option<Lone<C>> {
        let mut channels = Vec::new(alloc);
        for settings in list.into_channels() {
            channels.push(C::made(alloc, settings).ok()?).ok()?;
        }
        Some(Lone {
            alloc,
            scid,
            channels,
        })
    }

    fn operate(&mut self, operation: Operation) -> Option<Answer> {
        let vcid = match &operation {
            Operation::Frame(octets) => return self.bring(octets.as_slice()),
            Operation::Release(vcid) => *vcid,
            Operation::Take(vcid, _) => *vcid,
            Operation::Unit(vcid, _) => *vcid,
            Operation::Clcw(vcid) => *vcid,
        };
        let Some(place) = place_of(&self.channels, vcid) else {
            return refused(Refusal::UnknownChannel);
        };
        ask(self.alloc, &mut self.channels[place], vcid, &operation)
    }

    // Brings octets to the channel that their frame names. The answer is a refusal if there is no such frame or
    // channel.
    fn bring(&mut self, octets: &[u8]) -> Option<Answer> {
        let frame = match read_frame(octets) {
            Ok(frame) => frame,
            Err(fault) => return unlocated(LocateFault::Frame(fault)),
        };
        let header = frame.header();
        if header.scid != self.scid {
            return unlocated(LocateFault::OtherSpacecraft);
        }
        let vcid = header.vcid;
        let Some(place) = place_of(&self.channels, vcid) else {
            return unlocated(LocateFault::UnknownChannel);
        };
        let reply = self.channels[place].bring(&frame).ok()?;
        Some(Answer::Frame { vcid, reply })
    }

    /// Writes the report on each channel, in rising order of their ids.
    pub(crate) fn report<W: Write>(&self, writer: &mut W) -> io::Result<()> {
        for vcid in 0..IDS {
            if let Some(place) = place_of(&self.channels, vcid) {
                report_channel(&self.channels[place], writer)?;
            }
        }
        Ok(())
    }
}

// Carries out an operation on one channel, and returns its answer.
fn ask<C: Form>(alloc: Global, channel: &mut C, vcid: u8, operation: &Operation) -> Option<Answer> {
    match operation {
        Operation::Take(_, apid) => match channel.take_packet(alloc, *apid) {
            Ok(packet) => Some(Answer::Take {
                vcid,
                apid: *apid,
                packet,
            }),
            Err(TakeFault::NoQueue) => refused(Refusal::NoQueue),
            Err(TakeFault::Empty) => refused(Refusal::Empty),
            Err(TakeFault::NoMemory) => None,
        },
        Operation::Unit(_, map) => match channel.take_whole(alloc, *map) {
            Ok(unit) => Some(Answer::Unit {
                vcid,
                map: *map,
                unit,
            }),
            Err(TakeUnitFault::NoMap) => refused(Refusal::NoMap),
            Err(TakeUnitFault::Empty) => refused(Refusal::Empty),
            Err(TakeUnitFault::NoMemory) => None,
        },
        Operation::Release(_) => match channel.let_out() {
            Ok(delivery) => Some(Answer::Release { vcid, delivery }),
            Err(ReleaseFault::Empty) => refused(Refusal::Empty),
            Err(ReleaseFault::NoMemory) => None,
        },
        _ => {
            let word = channel.word();
            Some(Answer::Clcw { vcid, word })
        }
    }
}

// Returns the place of the channel with this id, if there is one.
fn place_of<C: Form>(channels: &[C], vcid: u8) -> Option<usize>
    ensures { IfSome result (λ place. place < length channels.now) }
{
    channels
        .iter()
        .position(|channel| channel.made_with().vcid == vcid)
}

fn refused(refusal: Refusal) -> Option<Answer> {
    Some(Answer::Refused(refusal))
}

fn unlocated(fault: LocateFault) -> Option<Answer> {
    refused(Refusal::Unlocated(fault))
}

// Writes the report on a channel, then the number of waiting packets of each queue, and then the number of waiting
// units of each chosen MAP.
fn report_channel<C: Form, W: Write>(channel: &C, writer: &mut W) -> io::Result<()> {
    let settings = channel.made_with();
    let vcid = settings.vcid;
    let word = channel.word();
    let (events, buffered) = channel.events_and_fields();
    writeln!(
        writer,
        "final {vcid} {word:08x} events {events} buffered {buffered}"
    )?;
    for queue in settings.queues.as_slice() {
        if let Some(queued) = channel.packets(queue.apid) {
            let apid = queue.apid;
            writeln!(writer, "queue {vcid} {apid} {queued}")?;
        }
    }
    for chosen in settings.maps.as_slice() {
        if let Some(units) = channel.whole_units(chosen.map) {
            let map = chosen.map;
            writeln!(writer, "map {vcid} {map} {units}")?;
        }
    }
    Ok(())
}
