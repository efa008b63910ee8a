//! The answers to lines.

ghost use Rattle.std.specs.Prelude.{◌≡◌, Some};
ghost use Rattle.std.specs.Fmt.{WritesOnOk};
ghost use Rattle.tc_live.specs.Printed.{live_text, link_text, holding_text, farm_text, rest_text, queues_text, queue_text, maps_text, map_text, state_text};
ghost use Rattle.tc_live.specs.Receiver.{collection_answer, link_answer, report_answer, script_answer};

use std::fmt;
use tc_channel::{Holding, MapHolding, QueueHolding};
use tc_link::{Link, State};
use tc_rack::Answer;

/// The answer to a good line.
#[derive(Debug, Drop)]
pub enum LiveAnswer {
    /// No text. The line sets something up, has no words, or is a comment.
    Nothing,
    /// The answer to an operation of a script.
    Operation(Answer),
    /// The answer to the release that a delivery begins with. [`Receiver::hand_on`](crate::Receiver::hand_on) ends the delivery.
    Delivery { vcid: u8, answer: Answer },
    /// The beginning of a collection, which is a delivery without a release.
    /// [`Receiver::hand_on`](crate::Receiver::hand_on) ends the collection.
    Collection { vcid: u8 },
    /// A refusal of octets that aren't a frame with the right frame error control field.
    Unchecked,
    /// A refusal of a candidate in which more than fill follows the frame.
    More,
    /// The flags of the link that a channel's CLCWs report from this line on.
    Link { vcid: u8, link: Link },
    /// The state of a channel and of its queues.
    Report { vcid: u8, holding: Holding },
    /// A refusal of a line for a channel that doesn't exist.
    UnknownChannel,
}

impl LiveAnswer {
    /// Returns the answer to a line of a script, which is `Nothing` unless the line is an operation.
    pub(crate) fn of_script(answer: Option<Answer>) -> LiveAnswer
        ensures { result ≡ script_answer answer }
    {
        match answer {
            Some(answer) => LiveAnswer::Operation(answer),
            None => LiveAnswer::Nothing,
        }
    }

    /// Returns the answer that begins a collection, or a refusal if there is no such channel. `clcw` is the answer to a
    /// request for the channel's CLCW, which shows whether the channel exists.
    pub(crate) fn of_collection(vcid: u8, clcw: &Answer) -> LiveAnswer
        ensures { result ≡ collection_answer vcid clcw.now }
    {
        match clcw {
            Answer::Refused(_) => LiveAnswer::UnknownChannel,
            _ => LiveAnswer::Collection { vcid },
        }
    }

    /// Returns the answer with the flags of the link of a channel, or a refusal if `known` is false.
    pub(crate) fn of_link(known: bool, vcid: u8, link: Link) -> LiveAnswer
        ensures { result ≡ link_answer known vcid link }
    {
        if known {
            LiveAnswer::Link { vcid, link }
        } else {
            LiveAnswer::UnknownChannel
        }
    }

    /// Returns the report on a channel, or a refusal if there is no such channel.
    pub(crate) fn of_report(vcid: u8, found: Option<Holding>) -> LiveAnswer
        ensures { result ≡ report_answer vcid found }
    {
        match found {
            Some(holding) => LiveAnswer::Report { vcid, holding },
            None => LiveAnswer::UnknownChannel,
        }
    }
}

impl fmt::Display for LiveAnswer {
    ghost output = { λ answer. Some (live_text answer) };

    fn fmt<W: fmt::Write>(&self, f: &mut fmt::Formatter<W>) -> fmt::Result {
        match self {
            LiveAnswer::Nothing => Ok(()),
            LiveAnswer::Operation(answer) => writeln!(f, "{answer}"),
            LiveAnswer::Delivery { vcid: _, answer } => writeln!(f, "{answer}"),
            LiveAnswer::Collection { vcid: _ } => Ok(()),
            LiveAnswer::Unchecked => f.write_str("refused check\n"),
            LiveAnswer::More => f.write_str("refused more\n"),
            LiveAnswer::Link { vcid, link } => write_link(f, *vcid, *link),
            LiveAnswer::Report { vcid, holding } => write_report(f, *vcid, holding),
            LiveAnswer::UnknownChannel => f.write_str("refused channel\n"),
        }
    }
}

fn write_link<W: fmt::Write>(f: &mut fmt::Formatter<W>, vcid: u8, link: Link) -> fmt::Result
    ensures { WritesOnOk W.write_str_gives f.old result (link_text vcid link) f.new }
{
    let no_rf = u8::from(link.no_rf);
    let no_bit_lock = u8::from(link.no_bit_lock);
    writeln!(f, "link {vcid} {no_rf} {no_bit_lock}")
}

#[tactic(auto, unfolding(crate::specs::Printed::holding_text))]
fn write_report<W: fmt::Write>(
    f: &mut fmt::Formatter<W>,
    vcid: u8,
    holding: &Holding,
) -> fmt::Result
    ensures { WritesOnOk W.write_str_gives f.old result (holding_text vcid holding.now) f.new }
{
    write_farm(f, vcid, holding)?;
    write_rest(f, holding)?;
    write_queues(f, holding.queues.as_slice())?;
    write_maps(f, holding.maps.as_slice())?;
    f.write_str("\n")
}

#[tactic(auto, unfolding(crate::specs::Printed::farm_text))]
fn write_farm<W: fmt::Write>(f: &mut fmt::Formatter<W>, vcid: u8, holding: &Holding) -> fmt::Result
    ensures { WritesOnOk W.write_str_gives f.old result (farm_text vcid holding.now) f.new }
{
    let state = state_word(holding.report.state);
    let vr = holding.report.vr;
    let lockout = u8::from(holding.report.lockout);
    let wait = u8::from(holding.report.wait);
    write!(
        f,
        "report {vcid} state {state} vr {vr} lockout {lockout} wait {wait}"
    )
}

fn state_word(state: State) -> &'static str
    ensures { result.now ≡ state_text state }
{
    match state {
        State::S1 => "open",
        State::S2 => "wait",
        State::S3 => "lockout",
    }
}

#[tactic(auto, unfolding(crate::specs::Printed::rest_text))]
fn write_rest<W: fmt::Write>(f: &mut fmt::Formatter<W>, holding: &Holding) -> fmt::Result
    ensures { WritesOnOk W.write_str_gives f.old result (rest_text holding.now) f.new }
{
    let retransmit = u8::from(holding.report.retransmit);
    let farm_b = holding.report.farm_b;
    let buffered = holding.buffered;
    write!(
        f,
        " retransmit {retransmit} farm-b {farm_b} buffered {buffered}"
    )
}

fn write_queues<W: fmt::Write>(f: &mut fmt::Formatter<W>, queues: &[QueueHolding]) -> fmt::Result
    ensures { WritesOnOk W.write_str_gives f.old result (queues_text queues.now) f.new }
{
    for queue in queues {
        write_queue(f, queue)?;
    }
    Ok(())
}

fn write_queue<W: fmt::Write>(f: &mut fmt::Formatter<W>, queue: &QueueHolding) -> fmt::Result
    ensures { WritesOnOk W.write_str_gives f.old result (queue_text queue.now) f.new }
{
    let apid = queue.apid;
    let packets = queue.packets;
    write!(f, " queue {apid} {packets}")
}

fn write_maps<W: fmt::Write>(f: &mut fmt::Formatter<W>, maps: &[MapHolding]) -> fmt::Result
    ensures { WritesOnOk W.write_str_gives f.old result (maps_text maps.now) f.new }
{
    for chosen in maps {
        write_map(f, chosen)?;
    }
    Ok(())
}

fn write_map<W: fmt::Write>(f: &mut fmt::Formatter<W>, chosen: &MapHolding) -> fmt::Result
    ensures { WritesOnOk W.write_str_gives f.old result (map_text chosen.now) f.new }
{
    let map = chosen.map;
    let units = chosen.units;
    write!(f, " map {map} {units}")
}
