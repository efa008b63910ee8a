//! The operations of a desk's operators, and their questions.

ghost use Rattle.std.specs.Prelude.{◌≡◌};
ghost use Rattle.tc_desk.specs.Log.{moment_of};
ghost use Rattle.tc_desk.specs.Call.{HasMet, HasSeenNoMore, IsStep, IsAsked};

use logged_lock::NextEntry;
use std::marker::{Brand, PhantomData};
use tc_channel::{
    Delivery, Event, FrameReply, Journal, NoMemory, ReleaseFault, TakeFault, TakeUnitFault,
};
use tc_link::Frame;
use tc_status::{DeskOf, Watcher};

/// The event that a call makes. Each call chooses it.
pub trait Occasion {
    ghost use Rattle.tc_channel.specs.declared.event.Event.{Event};

    ghost event: { Event };
}

impl Occasion for Brand {
    ghost use Rattle.tc_channel.specs.declared.event.Event.TheVariants.{Release};

    ghost event = { Release };
}

/// The journal entry that is the event of a call.
pub(crate) struct Makes<P> {
    marker: PhantomData<P>,
}

impl<P: Occasion> NextEntry<Event> for Makes<P> {
    ghost entry = { P.event };
}

/// An operation on a desk, which is an event if it is answered.
pub trait Operation<J: Journal> {
    ghost use Rattle.tc_channel.specs.declared.event.Event.{Event};
    ghost use Rattle.tc_desk.specs.Log.{Moment};

    type Answer;

    type Fault;

    // the event that the operation is if it is answered
    ghost event: { Self → Event };

    // the answers that the operation may have at a moment
    ghost answers: { Self → Moment → Self.Answer → Type 0 };

    // the faults with which the operation may be refused at a moment
    ghost refuses: { Self → Moment → Self.Fault → Type 0 };

    fn run(&self, desk: &mut DeskOf<J>) -> Result<Self::Answer, Self::Fault>
        ensures step { IsStep (event self.now) (answers self.now) (refuses self.now) (moment_of desk.old) result (moment_of desk.new) };
}

/// Runs the operation on the desk, and lets the watcher see the channel before and after it.
pub(crate) fn run_met<J: Journal, O: Operation<J>>(
    desk: &mut DeskOf<J>,
    watcher: &mut Watcher,
    operation: &O,
) -> Result<O::Answer, O::Fault>
    requires board { watcher.old.board ≡ desk.old.board }
    ensures step { IsStep (O.event operation.now) (λ m r. O.answers operation.now m r × HasSeenNoMore watcher.old m)
        (λ m f. O.refuses operation.now m f × HasSeenNoMore watcher.old m) (moment_of desk.old) result (moment_of desk.new) }
    ensures met { HasMet (moment_of desk.new) watcher.new }
{
    desk.meet(watcher);
    let answer = operation.run(desk);
    desk.meet(watcher);
    answer
}

/// A question to a desk, which doesn't change the desk.
pub trait Question<J: Journal> {
    ghost use Rattle.tc_desk.specs.Log.{Moment};

    type Answer;

    // the answers that the question may have at a moment
    ghost answers: { Self → Moment → Self.Answer → Type 0 };

    fn ask(&self, desk: &mut DeskOf<J>) -> Self::Answer
        ensures asked { IsAsked (answers self.now) (moment_of desk.old) result (moment_of desk.new) };
}

/// A release of the oldest data field.
#[derive(Drop)]
pub struct Release;

impl<J: Journal> Operation<J> for Release {
    ghost use Rattle.tc_channel.specs.declared.event.Event.TheVariants.{Release};
    ghost use Rattle.tc_desk.specs.Call.{IsReleased, IsReleaseFault};

    type Answer = Delivery;

    type Fault = ReleaseFault;

    ghost event = { λ _. Release };

    ghost answers = { λ _. IsReleased };

    ghost refuses = { λ _. IsReleaseFault };

    fn run(&self, desk: &mut DeskOf<J>) -> Result<Delivery, ReleaseFault> {
        desk.release()
    }
}

/// The arrival of a frame.
#[derive(Drop)]
pub struct Framing<'a> {
    pub frame: &'a Frame<'a>,
}

impl<J: Journal> Operation<J> for Framing<'_> {
    ghost use Rattle.tc_channel.specs.declared.event.Event.TheVariants.{Frame};
    ghost use Rattle.tc_desk.specs.Call.{IsFramed, IsFrameFault};

    type Answer = FrameReply;

    type Fault = NoMemory;

    ghost event = { λ o. Frame o.frame.now };

    ghost answers = { λ o. IsFramed o.frame.now };

    ghost refuses = { λ o. IsFrameFault J.grows o.frame.now };

    fn run(&self, desk: &mut DeskOf<J>) -> Result<FrameReply, NoMemory> {
        desk.frame(self.frame)
    }
}

/// The arrival of a frame, with a new watcher of the desk's board that has seen the frame.
#[derive(Drop)]
pub struct WatchedFraming<'a> {
    pub frame: &'a Frame<'a>,
}

impl<J: Journal> Operation<J> for WatchedFraming<'_> {
    ghost use Rattle.std.specs.Prelude.{⊤};
    ghost use Rattle.tc_channel.specs.declared.event.Event.TheVariants.{Frame};
    ghost use Rattle.tc_desk.specs.Call.{IsFramedWatched};

    type Answer = (FrameReply, Watcher);

    type Fault = NoMemory;

    ghost event = { λ o. Frame o.frame.now };

    ghost answers = { λ o. IsFramedWatched o.frame.now };

    ghost refuses = { λ _ _ _. ⊤ };

    fn run(&self, desk: &mut DeskOf<J>) -> Result<(FrameReply, Watcher), NoMemory> {
        let mut watcher = desk.watcher()?;
        let reply = desk.frame(self.frame)?;
        desk.meet(&mut watcher);
        Ok((reply, watcher))
    }
}

/// The take of the oldest packet of a queue.
#[derive(Drop)]
pub struct Taking {
    pub apid: u16,
}

impl<J: Journal> Operation<J> for Taking {
    ghost use Rattle.tc_channel.specs.declared.event.Event.TheVariants.{Take};
    ghost use Rattle.tc_desk.specs.Call.{IsOldestPacket, IsTakeFault};

    type Answer = Vec<u8>;

    type Fault = TakeFault;

    ghost event = { λ o. Take o.apid };

    ghost answers = { λ o m packet. IsOldestPacket o.apid m packet.items };

    ghost refuses = { λ o. IsTakeFault J.grows o.apid };

    fn run(&self, desk: &mut DeskOf<J>) -> Result<Vec<u8>, TakeFault> {
        desk.take(self.apid)
    }
}

/// The take of the oldest unit of a chosen MAP.
#[derive(Drop)]
pub struct UnitTaking {
    pub map: u8,
}

impl<J: Journal> Operation<J> for UnitTaking {
    ghost use Rattle.tc_channel.specs.declared.event.Event.TheVariants.{TakeUnit};
    ghost use Rattle.tc_desk.specs.Call.{IsOldestUnit, IsTakeUnitFault};

    type Answer = Vec<u8>;

    type Fault = TakeUnitFault;

    ghost event = { λ o. TakeUnit o.map };

    ghost answers = { λ o m unit. IsOldestUnit o.map m unit.items };

    ghost refuses = { λ o. IsTakeUnitFault J.grows o.map };

    fn run(&self, desk: &mut DeskOf<J>) -> Result<Vec<u8>, TakeUnitFault> {
        desk.take_unit(self.map)
    }
}

/// The request for a watcher of the desk's board.
#[derive(Drop)]
pub struct Watching;

impl<J: Journal> Question<J> for Watching {
    ghost use Rattle.std.specs.Prelude.{IfOk};
    ghost use Rattle.tc_desk.specs.Log.{history_of};
    ghost use Rattle.tc_desk.specs.Call.{HasSeen};

    type Answer = Result<Watcher, NoMemory>;

    ghost answers = { λ _ m answer. IfOk answer (HasSeen m (history_of m)) };

    fn ask(&self, desk: &mut DeskOf<J>) -> Result<Watcher, NoMemory> {
        desk.watcher()
    }
}

/// The request for the number of events in the journal, or 2^64 - 1 if there are more.
#[derive(Drop)]
pub(crate) struct Counting;

impl<J: Journal> Question<J> for Counting {
    ghost use Rattle.tc_desk.specs.Call.{IsCount};

    type Answer = u64;

    ghost answers = { λ _. IsCount };

    fn ask(&self, desk: &mut DeskOf<J>) -> u64 {
        desk.channel().events()
    }
}
