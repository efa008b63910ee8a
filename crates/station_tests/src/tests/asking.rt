//! The operation of a line, carried out on a station, on a desk, and on a channel without a station.

ghost use Rattle.std.specs.Prelude.{◌≡◌, All};
ghost use Rattle.tc_station.specs.Tally.{IsOurs};

use super::*;
use tc_channel::{Delivery, FrameReply, NoMemory, Octets};
use tc_cli::{Answer, Line, Refusal};
use tc_link::{FrameFault, read_frame};
use tc_station::{
    BringFault, Brought, Desk, LocateFault, ReleaseRefused, TakeRefused, TakeUnitRefused,
};
use tc_status::Watcher;

// The answer that a script prints for an operation, unless memory ran out.
pub(super) type Asked = Result<Answer, NoMemory>;

fn refused(refusal: Refusal) -> Asked {
    Ok(Answer::Refused(refusal))
}

fn of_frame(answer: Result<Brought, BringFault>) -> Asked {
    match answer {
        Ok(Brought { vcid, reply }) => Ok(Answer::Frame { vcid, reply }),
        Err(BringFault::Locate(fault)) => refused(Refusal::Unlocated(fault)),
        Err(BringFault::NoMemory) => Err(NoMemory),
    }
}

fn of_release(vcid: u8, answer: Result<Delivery, ReleaseRefused>) -> Asked {
    match answer {
        Ok(delivery) => Ok(Answer::Release { vcid, delivery }),
        Err(ReleaseRefused::UnknownChannel) => refused(Refusal::UnknownChannel),
        Err(ReleaseRefused::Empty) => refused(Refusal::Empty),
        Err(ReleaseRefused::NoMemory) => Err(NoMemory),
    }
}

fn of_take(vcid: u8, apid: u16, answer: Result<Vec<u8>, TakeRefused>) -> Asked {
    match answer {
        Ok(packet) => {
            let packet = Octets::from(packet);
            Ok(Answer::Take { vcid, apid, packet })
        }
        Err(TakeRefused::UnknownChannel) => refused(Refusal::UnknownChannel),
        Err(TakeRefused::NoQueue) => refused(Refusal::NoQueue),
        Err(TakeRefused::Empty) => refused(Refusal::Empty),
        Err(TakeRefused::NoMemory) => Err(NoMemory),
    }
}

fn of_unit(vcid: u8, map: u8, answer: Result<Vec<u8>, TakeUnitRefused>) -> Asked {
    match answer {
        Ok(unit) => {
            let unit = Octets::from(unit);
            Ok(Answer::Unit { vcid, map, unit })
        }
        Err(TakeUnitRefused::UnknownChannel) => refused(Refusal::UnknownChannel),
        Err(TakeUnitRefused::NoMap) => refused(Refusal::NoMap),
        Err(TakeUnitRefused::Empty) => refused(Refusal::Empty),
        Err(TakeUnitRefused::NoMemory) => Err(NoMemory),
    }
}

fn of_word(vcid: u8, answer: Option<u32>) -> Asked {
    match answer {
        Some(word) => Ok(Answer::Clcw { vcid, word }),
        None => refused(Refusal::UnknownChannel),
    }
}

// The report of a channel on itself: its CLCW with both link flags 0, and its number of events. A channel that isn't
// behind a lock also reports the numbers of data fields, of packets for APID 5 and of units of MAP 3 that wait.
#[derive(Clone, Copy, PartialEq, Eq)]
pub(super) struct Reported {
    pub(super) word: Option<u32>,
    events: Option<u64>,
    waiting: [Option<usize>; 3],
}

// A station, a desk or a channel that carries out operations.
pub(super) trait Asking: Drop {
    // Carries out the operation of a line on a virtual channel.
    fn ask<R: Wait + Abort>(&mut self, rt: &R, vcid: u8, line: &Line) -> Asked;

    fn reported<R: Wait + Abort>(&mut self, rt: &R, vcid: u8) -> Reported;

    // Returns whether there is a virtual channel 2 besides channel 1.
    fn has_two(&self) -> bool {
        false
    }
}

fn reported_of<J: Journal>(channel: &ChannelWith<J>) -> Reported {
    Reported {
        word: Some(channel.clcw(NO_FLAG)),
        events: Some(channel.events()),
        waiting: [
            Some(channel.buffered()),
            channel.queued(5),
            channel.units(3),
        ],
    }
}

// Returns the answer that a station with one channel would give. `read` is the result of bringing octets to a desk, or
// to a channel without a station.
fn of_alone(vcid: u8, read: Result<Result<FrameReply, NoMemory>, FrameFault>) -> Asked {
    match read {
        Ok(reply) => Ok(Answer::Frame {
            vcid,
            reply: reply?,
        }),
        Err(fault) => refused(Refusal::Unlocated(LocateFault::Frame(fault))),
    }
}

impl Asking for Channel {
    fn ask<R: Wait + Abort>(&mut self, rt: &R, vcid: u8, line: &Line) -> Asked {
        match line {
            Line::Frame(octets) => match read_frame(octets.as_slice()) {
                Ok(frame) => of_alone(vcid, Ok(self.frame(&frame))),
                Err(fault) => of_alone(vcid, Err(fault)),
            },
            Line::Release(_) => of_release(vcid, self.release().map_err(ReleaseRefused::from)),
            Line::Take(_, apid) => of_take(
                vcid,
                *apid,
                self.take(*apid).map_err(TakeRefused::from),
            ),
            Line::Unit(_, map) => of_unit(
                vcid,
                *map,
                self.take_unit(*map).map_err(TakeUnitRefused::from),
            ),
            Line::Clcw(_) => of_word(vcid, Some(self.clcw(NO_FLAG))),
            _ => panic!(rt; "a line that is no operation"),
        }
    }

    fn reported<R: Wait + Abort>(&mut self, _: &R, _: u8) -> Reported {
        reported_of(self)
    }
}

// The desk's CLCW is the one that its watcher reads. The watcher was created before the first frame.
impl Asking for Watched {
    fn ask<R: Wait + Abort>(&mut self, rt: &R, vcid: u8, line: &Line) -> Asked {
        let desk = &mut self.desk;
        match line {
            Line::Frame(octets) => match read_frame(octets.as_slice()) {
                Ok(frame) => of_alone(vcid, Ok(desk.frame(&frame))),
                Err(fault) => of_alone(vcid, Err(fault)),
            },
            Line::Release(_) => of_release(vcid, desk.release().map_err(ReleaseRefused::from)),
            Line::Take(_, apid) => of_take(
                vcid,
                *apid,
                desk.take(*apid).map_err(TakeRefused::from),
            ),
            Line::Unit(_, map) => of_unit(
                vcid,
                *map,
                desk.take_unit(*map).map_err(TakeUnitRefused::from),
            ),
            Line::Clcw(_) => of_word(vcid, Some(self.watcher.read())),
            _ => panic!(rt; "a line that is no operation"),
        }
    }

    fn reported<R: Wait + Abort>(&mut self, _: &R, _: u8) -> Reported {
        reported_of(self.desk.channel())
    }
}

// A desk, and a watcher of its board.
#[derive(Drop)]
pub(super) struct Watched {
    pub(super) desk: Desk,
    pub(super) watcher: Watcher,
}

// A station with one operator. Frames are brought with or without a watcher of their channel.
#[derive(Drop)]
pub(super) struct OperatorList<J: Journal> {
    is_watched: bool,
    pub(super) station: StationOf<J>,
    pub(super) operator: Operator,
    ghost ours: { IsOurs station operator },
}

// Issues the only operator of a station, even if memory is refused once.
fn only_operator<J: Journal>(rt: &(impl Abort + Print), station: &mut StationOf<J>) -> Operator
    ensures ours { IsOurs station.new result }
    ensures same { station.new.vcids ≡ station.old.vcids }
{
    let operator = new_operators(rt, station, 1).pop();
    operator.expect(rt, "an operator")
}

// Returns a channel's CLCW with both link flags 0, as a new watcher reads it, if the station has that channel.
fn status_of<J: Journal>(station: &StationOf<J>, rt: &impl Wait, vcid: u8) -> Option<u32> {
    let mut watcher = station.watcher(rt, vcid).ok()?;
    Some(station.watch(&mut watcher, NO_FLAG))
}

impl<J: Journal> OperatorList<J> {
    pub(super) fn new(
        rt: &(impl Abort + Print),
        mut station: StationOf<J>,
        is_watched: bool,
    ) -> OperatorList<J>
        ensures { result.station.vcids ≡ station.vcids }
    {
        let operator = only_operator(rt, &mut station);
        OperatorList {
            is_watched,
            station,
            operator,
        }
    }

    pub(super) fn bring(&mut self, rt: &impl Wait, octets: &[u8]) -> Result<Brought, BringFault>
        ensures { self.new.station.vcids ≡ self.old.station.vcids }
    {
        self.station.bring(rt, &mut self.operator, octets)
    }

    // Brings a frame together with a new watcher. Returns the answer, and the CLCW that this watcher reads.
    pub(super) fn bring_watched(
        &mut self,
        rt: &impl Wait,
        octets: &[u8],
    ) -> Result<(Brought, u32), BringFault> {
        let (brought, mut own) = self.station.bring_watched(rt, &mut self.operator, octets)?;
        Ok((brought, self.station.watch(&mut own, NO_FLAG)))
    }

    // Brings a frame together with a new watcher, and checks that a watcher that is created afterwards reads the same.
    fn bring_seen(
        &mut self,
        rt: &(impl Wait + Abort),
        octets: &[u8],
    ) -> Result<Brought, BringFault> {
        let (brought, word) = self.bring_watched(rt, octets)?;
        assert!(rt; status_of(&self.station, rt, brought.vcid) == Some(word));
        Ok(brought)
    }

    pub(super) fn release(&mut self, rt: &impl Wait, vcid: u8) -> Result<Delivery, ReleaseRefused> {
        self.station.release(rt, &mut self.operator, vcid)
    }

    pub(super) fn take(
        &mut self,
        rt: &impl Wait,
        vcid: u8,
        apid: u16,
    ) -> Result<Vec<u8>, TakeRefused> {
        self.station.take(rt, &mut self.operator, vcid, apid)
    }

    pub(super) fn take_unit(
        &mut self,
        rt: &impl Wait,
        vcid: u8,
        map: u8,
    ) -> Result<Vec<u8>, TakeUnitRefused> {
        self.station.take_unit(rt, &mut self.operator, vcid, map)
    }

    // Closes the station, and returns its channels. If memory is refused once, the call returns the station and its
    // operators, and a second call closes the station.
    pub(super) fn close(self, rt: &(impl Abort + Print), alloc: Global) -> Vec<ChannelWith<J>> {
        let OperatorList {
            is_watched: _,
            station,
            operator,
        } = self;
        let operators = list_of(alloc, operator).expect(rt, "a list");
        closed_together(rt, station, operators)
    }
}

// Closes a station together with its operators. If memory is refused once, the call returns the station and the
// operators, and a second call closes the station.
pub(super) fn closed_together<J: Journal>(
    rt: &(impl Abort + Print),
    station: StationOf<J>,
    operators: Vec<Operator>,
) -> Vec<ChannelWith<J>>
    requires { All (IsOurs station) operators.items }
{
    let left = match station.close_together(operators) {
        Ok(channels) => return channels,
        Err(left) => left,
    };
    let _ = println!(rt; "refused: close_together");
    assert!(rt; left.refusal == tc_station::Refusal::NoMemory);
    match left.station.close_together(left.operators) {
        Ok(channels) => channels,
        Err(_) => panic!(rt; "not closed"),
    }
}

impl<J: Journal> Asking for OperatorList<J> {
    fn ask<R: Wait + Abort>(&mut self, rt: &R, vcid: u8, line: &Line) -> Asked {
        match line {
            Line::Frame(octets) if self.is_watched => {
                of_frame(self.bring_seen(rt, octets.as_slice()))
            }
            Line::Frame(octets) => of_frame(self.bring(rt, octets.as_slice())),
            Line::Release(_) => of_release(vcid, self.release(rt, vcid)),
            Line::Take(_, apid) => of_take(vcid, *apid, self.take(rt, vcid, *apid)),
            Line::Unit(_, map) => of_unit(vcid, *map, self.take_unit(rt, vcid, *map)),
            Line::Clcw(_) => of_word(vcid, status_of(&self.station, rt, vcid)),
            _ => panic!(rt; "a line that is no operation"),
        }
    }

    fn reported<R: Wait + Abort>(&mut self, rt: &R, vcid: u8) -> Reported {
        Reported {
            word: status_of(&self.station, rt, vcid),
            events: self.operator.count(vcid),
            waiting: [None; 3],
        }
    }

    fn has_two(&self) -> bool {
        true
    }
}
