//! A receiver that carries out lines.

ghost use Rattle.std.specs.Prelude.{◌≡◌, ◌≢◌, ◌⊎◌, ◌↔◌, [], All, IsPermutation, IsTrue, IfOk, IfErr, OnOk, OnErr};
ghost use Rattle.std.specs.Io.KnownBytes.{Keeps};
ghost use Rattle.tc_rack.specs.Delivery.{AreAnswersWritten};
ghost use Rattle.tc_rack.specs.Report.{AreNonDecreasing};
ghost use Rattle.tc_rack.specs.Stage.{phase_of};
ghost use Rattle.tc_live.specs.Ends.{ends_behind};
ghost use Rattle.tc_live.specs.Receiver.{new_receiver, begun, rack_at, IsInstructed, IsScriptDone, IsPassedDone, IsCandidateDone, IsBadCandidate, IsLinked, IsReportDone, IsDeliveryBegun, IsCollectionBegun, IsDeliveryDone, IsLiveLineAnswered, IsBadLiveLine, IsBadScript, IsBadScriptLine, IsScriptLineAnswered, IsReceiverLeft};
ghost use Rattle.tc_live.specs.Serving.{IsClosingFault, IsReportWritten};
ghost use Rattle.tc_rack.specs.Rack.{histories};
ghost use Rattle.tc_rack.specs.Instruction.{instruction_of};
ghost use Rattle.tc_rack.specs.Phase.{Does, IsBad, IsBadOperation, Operates, Setup, Operation as InOperation};
ghost use Rattle.tc_channel.specs.Journal.{IsNumberReported};

use crate::answer::LiveAnswer;
use crate::check::{FrameCheck, carries_more};
use crate::ends::FrameEnds;
use crate::serving::ServingFault;
use std::alloc::Global;
use std::io;
use std::io::Write;
use std::marker::Model;
use tc_channel::{CountingChannel, Octets};
use tc_link::Link;
use tc_rack::{
    Configuration, Instruction, Operation, Rack, RackBackend, Stage, begin, perform, write_report,
};
use tc_text::{Line, LiveLine, Reason, SpacecraftId, parse_line, parse_live_line};

/// A receiver of one spacecraft: its channels, which are being set up or are in operation, and the check that octets
/// must pass before they are brought to one of the channels.
///
/// A contract sees all fields, and of each channel its settings, its journal and the flags of its link.
#[derive(Drop)]
pub struct Receiver {
    check: FrameCheck,
    ends: FrameEnds,
    scid: u16,
    stage: Stage<Rack>,
}

impl Model for Receiver {
    ghost use Rattle.tc_live.specs.Receiver.{Receiving};

    ghost Value = { Receiving };

    ghost view = { λ o. record { check = o.check; ends = o.ends; scid = o.scid; stage = o.stage } };
}

impl Receiver {
    /// Creates a receiver for which nothing is set up.
    pub fn new(alloc: Global, spacecraft: SpacecraftId, check: FrameCheck) -> Receiver
        ensures { result ≡ new_receiver check spacecraft.number }
    {
        Receiver {
            check,
            ends: FrameEnds::NoFrame,
            scid: spacecraft.number,
            stage: Stage::SettingUp(Configuration::new(alloc)),
        }
    }

    /// Carries out a line, which is given without its line feed, and returns its answer. A bad line leaves the receiver
    /// as it is. If memory runs out, the line can be tried again. If this line was the first operation, the channels
    /// may already have been created. For a delivery or a collection, the call only begins it, and
    /// [`hand_on`](Receiver::hand_on) ends it.
    pub fn do_line(&mut self, alloc: Global, octets: &[u8]) -> Result<LiveAnswer, Reason>
        ensures answer { IfOk result (IsLiveLineAnswered self.old octets.now self.new) }
        ensures reason { IfErr result (λ reason. (reason ≡ Reason.NoMemory) ⊎ IsBadLiveLine self.old octets.now reason) }
        ensures refused { IfErr result (λ reason. IsReceiverLeft reason self.old self.new) }
    {
        match parse_live_line(alloc, octets)? {
            LiveLine::Script(line) => self.perform(alloc, line),
            LiveLine::Link { vcid, link } => self.link(alloc, vcid, link),
            LiveLine::Report(vcid) => self.report(alloc, vcid),
            LiveLine::Deliver(vcid) => self.begin_delivery(alloc, vcid),
            LiveLine::Collect(vcid) => self.begin_collection(alloc, vcid),
            LiveLine::Candidate(octets) => self.candidate(alloc, octets),
        }
    }

    /// Carries out a line of a script, as [`do_line`](Receiver::do_line) does, and returns its answer. A line that
    /// isn't one of a script, such as a `link` line, is bad.
    pub fn do_script_line(&mut self, alloc: Global, octets: &[u8]) -> Result<LiveAnswer, Reason>
        ensures answer { IfOk result (IsScriptLineAnswered self.old octets.now self.new) }
        ensures reason { IfErr result (λ reason. (reason ≡ Reason.NoMemory) ⊎ IsBadScriptLine self.old octets.now reason) }
        ensures refused { IfErr result (λ reason. IsReceiverLeft reason self.old self.new) }
    {
        let line = parse_line(alloc, octets)?;
        self.perform(alloc, line)
    }

    fn perform(&mut self, alloc: Global, line: Line) -> Result<LiveAnswer, Reason>
        ensures answer { IfOk result (IsScriptDone self.old line self.new) }
        ensures reason { IfErr result (λ reason. (reason ≡ Reason.NoMemory) ⊎ IsBadScript self.old line reason) }
        ensures refused { IfErr result (λ reason. IsReceiverLeft reason self.old self.new) }
    {
        let ends = self.ends_behind(&line);
        match self.check.pass(alloc, line)? {
            Some(passed) => {
                let answer = self.perform_passed(alloc, passed)?;
                self.ends = ends;
                Ok(answer)
            }
            None => Ok(LiveAnswer::Unchecked),
        }
    }

    // Carries out a candidate, and brings its frame to the frame's channel. If more than fill follows the frame, or if
    // the frame doesn't pass the check, nothing changes.
    fn candidate(&mut self, alloc: Global, octets: Octets) -> Result<LiveAnswer, Reason>
        ensures answer { IfOk result (IsCandidateDone self.old octets self.new) }
        ensures reason { IfErr result (λ reason. (reason ≡ Reason.NoMemory) ⊎ IsBadCandidate self.old octets reason) }
        ensures refused { IfErr result (λ reason. IsReceiverLeft reason self.old self.new) }
    {
        if carries_more(octets.as_slice()) {
            return Ok(LiveAnswer::More);
        }
        match self.check.pass_candidate(alloc, octets)? {
            Some(passed) => self.perform_passed(alloc, passed),
            None => Ok(LiveAnswer::Unchecked),
        }
    }

    // Returns the record of the ends of frames as it is once this line was carried out.
    fn ends_behind(&self, line: &Line) -> FrameEnds
        ensures { result ≡ ends_behind self.now.check self.now.ends line.now }
    {
        match (self.check, line) {
            (FrameCheck::Nothing, Line::Frame(octets)) => self.ends.after(octets.as_slice()),
            _ => self.ends,
        }
    }

    /// Returns the record of the ends of frames. It is kept only if frames aren't checked.
    pub fn ends(&self) -> FrameEnds
        ensures { result ≡ self.now.ends }
    {
        self.ends
    }

    // Carries out a line that passed the check.
    fn perform_passed(&mut self, alloc: Global, passed: Line) -> Result<LiveAnswer, Reason>
        ensures answer { IfOk result (IsPassedDone self.old passed self.new) }
        ensures reason { IfErr result (λ reason. (reason ≡ Reason.NoMemory) ⊎ IsBad (phase_of self.old.stage) (instruction_of passed) reason) }
        ensures refused { IfErr result (λ reason. IsReceiverLeft reason self.old self.new) }
    {
        self.instruct(alloc, Instruction::of(alloc, passed))
    }

    // Carries out the instruction of a line.
    fn instruct(&mut self, alloc: Global, instruction: Instruction) -> Result<LiveAnswer, Reason>
        ensures done { OnOk result (Does (phase_of self.old.stage) instruction (phase_of self.new.stage)) }
        ensures answer { IfOk result (IsInstructed self.old instruction self.new) }
        ensures reason { IfErr result (λ reason. (reason ≡ Reason.NoMemory) ⊎ IsBad (phase_of self.old.stage) instruction reason) }
        ensures refused { IfErr result (λ reason. IsReceiverLeft reason self.old self.new) }
    {
        let backend = self.backend();
        let answer = perform(&backend, alloc, &mut self.stage, instruction)?;
        Ok(LiveAnswer::of_script(answer))
    }

    fn link(&mut self, alloc: Global, vcid: u8, link: Link) -> Result<LiveAnswer, Reason>
        ensures done { OnOk result (Operates (phase_of self.old.stage) (phase_of self.new.stage)) }
        ensures answer { IfOk result (IsLinked self.old vcid link self.new) }
        ensures reason { IfErr result (λ reason. (reason ≡ Reason.NoMemory) ⊎ IsBadOperation (phase_of self.old.stage) reason) }
        ensures refused { IfErr result (λ reason. IsReceiverLeft reason self.old self.new) }
    {
        self.begin(alloc)?;
        match &mut self.stage {
            Stage::Operating(rack) => {
                let known = rack.link(vcid, link);
                Ok(LiveAnswer::of_link(known, vcid, link))
            }
            Stage::SettingUp(_) => unreachable!(),
        }
    }

    fn report(&mut self, alloc: Global, vcid: u8) -> Result<LiveAnswer, Reason>
        ensures done { OnOk result (Operates (phase_of self.old.stage) (phase_of self.new.stage)) }
        ensures answer { IfOk result (IsReportDone self.old vcid self.new) }
        ensures reason { IfErr result (λ reason. (reason ≡ Reason.NoMemory) ⊎ IsBadOperation (phase_of self.old.stage) reason) }
        ensures refused { IfErr result (λ reason. IsReceiverLeft reason self.old self.new) }
    {
        self.begin(alloc)?;
        match &self.stage {
            Stage::Operating(rack) => match rack.report(alloc, vcid) {
                Ok(found) => Ok(LiveAnswer::of_report(vcid, found)),
                Err(_) => Err(Reason::NoMemory),
            },
            Stage::SettingUp(_) => unreachable!(),
        }
    }

    // Carries out the release that a delivery begins with.
    fn begin_delivery(&mut self, alloc: Global, vcid: u8) -> Result<LiveAnswer, Reason>
        ensures done { OnOk result (Operates (phase_of self.old.stage) (phase_of self.new.stage)) }
        ensures answer { IfOk result (IsDeliveryBegun self.old vcid self.new) }
        ensures reason { IfErr result (λ reason. (reason ≡ Reason.NoMemory) ⊎ IsBadOperation (phase_of self.old.stage) reason) }
        ensures refused { IfErr result (λ reason. IsReceiverLeft reason self.old self.new) }
    {
        self.begin(alloc)?;
        match &mut self.stage {
            Stage::Operating(rack) => match rack.operate(Operation::Release(vcid)) {
                Ok(answer) => Ok(LiveAnswer::Delivery { vcid, answer }),
                Err(_) => Err(Reason::NoMemory),
            },
            Stage::SettingUp(_) => unreachable!(),
        }
    }

    // Begins a collection. A request for the channel's CLCW shows whether there is such a channel.
    fn begin_collection(&mut self, alloc: Global, vcid: u8) -> Result<LiveAnswer, Reason>
        ensures done { OnOk result (Operates (phase_of self.old.stage) (phase_of self.new.stage)) }
        ensures answer { IfOk result (IsCollectionBegun self.old vcid self.new) }
        ensures reason { IfErr result (λ reason. (reason ≡ Reason.NoMemory) ⊎ IsBadOperation (phase_of self.old.stage) reason) }
        ensures refused { IfErr result (λ reason. IsReceiverLeft reason self.old self.new) }
    {
        self.begin(alloc)?;
        match &mut self.stage {
            Stage::Operating(rack) => match rack.operate(Operation::Clcw(vcid)) {
                Ok(answer) => Ok(LiveAnswer::of_collection(vcid, &answer)),
                Err(_) => Err(Reason::NoMemory),
            },
            Stage::SettingUp(_) => unreachable!(),
        }
    }

    /// Ends a delivery or a collection that was begun. Takes all items that wait in the queues of the channel, as
    /// [`Rack::hand_on`] does, and writes the answers, the last of which is the CLCW. If there is no such channel,
    /// nothing is written. Nothing is allocated.
    pub fn hand_on<W: Write>(&mut self, vcid: u8, writer: &mut W) -> io::Result<()>
        requires { phase_of self.old.stage ≡ InOperation }
        ensures { OnOk result (AreAnswersWritten (W.contents writer.old) (W.contents writer.new) (IsDeliveryDone self.old vcid self.new)) }
    {
        match &mut self.stage {
            Stage::Operating(rack) => rack.hand_on(vcid, writer),
            Stage::SettingUp(_) => unreachable!(),
        }
    }

    // Creates the channels from a copy of the configuration, if no operation came before. If no channel was set up, or
    // if memory runs out, the call returns the reason, and the receiver stays as it was.
    fn begin(&mut self, alloc: Global) -> Result<(), Reason>
        ensures begun { OnOk result (self.new ≡ begun self.old) }
        ensures some { OnOk result (phase_of self.old.stage ≢ Setup []) }
        ensures reason { IfErr result (λ reason. (reason ≡ Reason.NoMemory) ⊎ IsBadOperation (phase_of self.old.stage) reason) }
        ensures refused { OnErr result (self.new ≡ self.old) }
    {
        let backend = self.backend();
        begin(&backend, alloc, &mut self.stage)
    }

    // Returns the backend that creates the channels.
    fn backend(&self) -> RackBackend
        ensures { result.scid ≡ self.now.scid }
    {
        RackBackend { scid: self.scid }
    }

    /// Ends the reception, and writes the final report of the channels, with both link flags 0. If the writer fails, a
    /// part of the report may be written. After any other fault, nothing is written.
    pub fn close<W: Write>(self, alloc: Global, writer: &mut W) -> Result<(), ServingFault>
        ensures written { OnOk result (IsReportWritten self (W.contents writer.old) (W.contents writer.new)) }
        ensures fault { IfErr result (IsClosingFault self) }
        ensures kept { IfErr result (λ fault. (fault ≡ ServingFault.Write) ⊎ Keeps (W.contents writer.old) (W.contents writer.new)) }
    {
        let channels = self.into_channels(alloc)?;
        write_report(&channels, writer).map_err(|_| ServingFault::Write)
    }

    // Returns the channels in rising order of their ids. They are the channels that an operation would find.
    fn into_channels(self, alloc: Global) -> Result<Vec<CountingChannel>, ServingFault>
        ensures channels { IfOk result (λ channels. IsPermutation (histories (rack_at self)) channels.items) }
        ensures ordered { IfOk result (λ channels. AreNonDecreasing channels.items) }
        ensures reported { IfOk result (λ channels. All IsNumberReported channels.items) }
        ensures fault { IfErr result (IsClosingFault self) }
    {
        let rack = self.into_rack(alloc)?;
        let mut channels = rack
            .into_channels(alloc)
            .map_err(|_| ServingFault::NoMemory)?;
        channels.sort_unstable_by_key(|channel| channel.settings().vcid);
        if are_reported(&channels) {
            Ok(channels)
        } else {
            Err(ServingFault::Unbalanced)
        }
    }

    fn into_rack(self, alloc: Global) -> Result<Rack, ServingFault>
        ensures rack { IfOk result (λ rack. rack ≡ rack_at self) }
        ensures fault { IfErr result (λ fault. fault ≡ ServingFault.NoMemory) }
    {
        let Receiver {
            check: _,
            ends: _,
            scid,
            stage,
        } = self;
        match stage {
            Stage::Operating(rack) => Ok(rack),
            Stage::SettingUp(list) => {
                Rack::new(alloc, scid, list).map_err(|_| ServingFault::NoMemory)
            }
        }
    }
}

// Returns whether each channel reports the exact number of its events.
fn are_reported(channels: &[CountingChannel]) -> bool
    ensures { IsTrue result ↔ All IsNumberReported channels.now }
{
    channels.iter().all(|channel| channel.events() < u64::MAX)
}
