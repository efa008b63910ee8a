//! Steps on a channel as data, with the expected answers, and a run that plays them on a channel of any form.

use super::*;
use tc_link::Report;

// A call on a channel, with the answer that it must give.
pub enum Step<'a> {
    // The frame of `ad_frame` with this N(S).
    Ad(u8, FrameReply),
    // A frame without fill.
    Frame(&'a [u8], FrameReply),
    // The Type-BD frame that carries this data field, of 32 octets at most.
    Field(&'a [u8], FrameReply),
    // The release of a unit of one packet.
    Release,
    // The release of a data field. The text names the contents of the field, and is printed if memory for the release is
    // refused.
    ReleaseOf(&'a str, Delivery),
    Take(u16, &'a [u8]),
    TakeUnit(u8, &'a [u8]),
    // A release, or a take, that gives nothing.
    NoRelease,
    NoTake(u16, TakeFault),
    NoTakeUnit(u8, TakeUnitFault),
    // The CLCW with both link flags 0.
    Clcw(u32),
    // The numbers of fields in the buffer, of packets that wait for APID 5, and of units that wait for MAP 3.
    Holds(usize, usize, Option<usize>),
    // The oldest packet for APID 5, and the oldest unit of MAP 3.
    Lends(Option<&'a [u8]>, Option<&'a [u8]>),
}

// The values that a channel reports.
#[derive(Clone, Copy, Debug, PartialEq, Eq)]
struct Reported {
    report: Report,
    word: u32,
    events_and_fields: (u64, usize),
    // The numbers of packets for APID 5 and for APID 7.
    queued: [Option<usize>; 2],
    // The number of units of MAP 3.
    units: Option<usize>,
}

fn report_of<C: Form>(channel: &C) -> Reported {
    Reported {
        report: channel.state(),
        word: channel.word(),
        events_and_fields: channel.events_and_fields(),
        queued: [channel.packets(5), channel.packets(7)],
        units: channel.whole_units(3),
    }
}

// A channel, and the journal that it must have. If memory for a call is refused, that is printed, and the call is made
// again.
#[derive(Drop)]
pub struct Run<C: Form> {
    name: &'static str,
    alloc: Global,
    channel: C,
    journal: Vec<Event>,
}

impl Run<Channel> {
    // Checks that the channel has the expected journal.
    pub fn check_journal(&self, rt: &impl Abort) {
        assert_eq!(rt; self.channel.journal(), self.journal.as_slice());
    }
}

impl<C: Form> Run<C> {
    pub fn new(alloc: Global, name: &'static str, channel: C) -> Run<C> {
        Run {
            name,
            alloc,
            channel,
            journal: Vec::new(alloc),
        }
    }

    // Prints a call for which memory was refused, and checks that the channel is as it was.
    fn check_refused(&self, rt: &(impl Abort + Print), call: &str, reported: &Reported) {
        let _ = println!(rt; "refused: {}::{call}", self.name);
        assert_eq!(rt; report_of(&self.channel), *reported);
    }

    // Notes that the journal must have one more event.
    fn note(&mut self, rt: &impl Abort, event: Event) {
        note(&mut self.journal, event).expect(rt, "an event")
    }

    fn frame(&mut self, rt: &(impl Abort + Print), octets: &[u8], reply: FrameReply) {
        let reported = report_of(&self.channel);
        let mut answer = offer(rt, &mut self.channel, octets);
        if answer.is_err() {
            let event = reply.act.event;
            let _ = println!(rt; "refused: {}::frame, event {event}", self.name);
            assert_eq!(rt; report_of(&self.channel), reported);
            answer = offer(rt, &mut self.channel, octets);
        }
        assert_eq!(rt; answer, Ok(reply));
        let event = frame_event(self.alloc, octets).expect(rt, "an event");
        self.note(rt, event)
    }

    fn field(&mut self, rt: &(impl Abort + Print), field: &[u8], reply: FrameReply) {
        let count = field.len().min(32);
        let mut octets = [0; 37];
        octets[..5].copy_from_slice(&[0x20, 0x2a, 0x04, count as u8 + 4, 0x00]);
        octets[5..count + 5].copy_from_slice(&field[..count]);
        self.frame(rt, &octets[..count + 5], reply)
    }

    fn release(&mut self, rt: &(impl Abort + Print), unit: &str, expected: Delivery) {
        let reported = report_of(&self.channel);
        let mut answer = self.channel.let_out();
        if answer == Err(ReleaseFault::NoMemory) {
            let _ = println!(rt; "refused: {}::release, {unit}", self.name);
            assert_eq!(rt; report_of(&self.channel), reported);
            answer = self.channel.let_out();
        }
        assert_eq!(rt; answer, Ok(expected));
        self.note(rt, Event::Release)
    }

    fn take(&mut self, rt: &(impl Abort + Print), apid: u16, packet: &[u8]) {
        let reported = report_of(&self.channel);
        let mut answer = self.channel.take_packet(self.alloc, apid);
        if answer == Err(TakeFault::NoMemory) {
            self.check_refused(rt, "take", &reported);
            answer = self.channel.take_packet(self.alloc, apid);
        }
        let taken = answer.expect(rt, "a packet");
        assert_eq!(rt; taken.as_slice(), packet);
        self.note(rt, Event::Take(apid))
    }

    fn take_unit(&mut self, rt: &(impl Abort + Print), map: u8, unit: &[u8]) {
        let reported = report_of(&self.channel);
        let mut answer = self.channel.take_whole(self.alloc, map);
        if answer == Err(TakeUnitFault::NoMemory) {
            self.check_refused(rt, "take_unit", &reported);
            answer = self.channel.take_whole(self.alloc, map);
        }
        let taken = answer.expect(rt, "a unit");
        assert_eq!(rt; taken.as_slice(), unit);
        self.note(rt, Event::TakeUnit(map))
    }

    // Checks that the channel lends this packet and this unit. It must lend nothing from a queue that it doesn't have.
    fn check_lent(&self, rt: &impl Abort, packet: Option<&[u8]>, unit: Option<&[u8]>) {
        assert_eq!(rt; self.channel.lent_packet(5), packet);
        assert_eq!(rt; self.channel.lent_whole(3), unit);
        assert_eq!(rt; self.channel.lent_packet(8), None);
        assert_eq!(rt; self.channel.lent_whole(4), None);
    }

    fn check_holds(&self, rt: &impl Abort, fields: usize, packets: usize, units: Option<usize>) {
        assert_eq!(rt; self.channel.events_and_fields().1, fields);
        assert_eq!(rt; self.channel.packets(5), Some(packets));
        assert_eq!(rt; self.channel.whole_units(3), units);
        assert_eq!(rt; self.channel.packets(8), None);
        assert_eq!(rt; self.channel.whole_units(4), None);
    }

    fn step(&mut self, rt: &(impl Abort + Print), step: &Step<'_>) {
        match *step {
            Step::Ad(ns, reply) => self.frame(rt, &ad_frame(1, ns), reply),
            Step::Frame(octets, reply) => self.frame(rt, octets, reply),
            Step::Field(field, reply) => self.field(rt, field, reply),
            Step::Release => self.release(rt, "one packet", ONE),
            Step::ReleaseOf(unit, delivery) => self.release(rt, unit, delivery),
            Step::Take(apid, packet) => self.take(rt, apid, packet),
            Step::TakeUnit(map, unit) => self.take_unit(rt, map, unit),
            Step::NoRelease => assert_eq!(rt; self.channel.let_out(), Err(ReleaseFault::Empty)),
            Step::NoTake(apid, fault) => {
                let taken = self.channel.take_packet(self.alloc, apid);
                assert_eq!(rt; taken.err(), Some(fault))
            }
            Step::NoTakeUnit(map, fault) => {
                let taken = self.channel.take_whole(self.alloc, map);
                assert_eq!(rt; taken.err(), Some(fault))
            }
            Step::Clcw(word) => assert_eq!(rt; self.channel.word(), word),
            Step::Holds(fields, packets, units) => self.check_holds(rt, fields, packets, units),
            Step::Lends(packet, unit) => self.check_lent(rt, packet, unit),
        }
    }

    // Plays the steps in order, and checks the number of events after each.
    pub fn play(&mut self, rt: &(impl Abort + Print), steps: &[Step<'_>]) {
        for step in steps {
            self.step(rt, step);
            assert_eq!(rt;
                self.channel.events_and_fields().0,
                self.journal.len() as u64
            );
        }
    }
}
