//! Lines for a live receiver: the lines of a script, and the lines of five more commands.

ghost use Rattle.std.specs.Prelude.{◌≡◌, ◌⊎◌, IfOk, IfErr, MatchResult};
ghost use Rattle.tc_lines.specs.Word.{words};
ghost use Rattle.tc_text.specs.LiveLine.{live_line_of, link_command, report_command, deliver_command, collect_command, candidate_command, flag_word};

use crate::fault::Reason;
use crate::line::{Line, parse_line};
use crate::word::{next_argument, no_more, three_arguments};
use hex::FromHexError;
use std::alloc::Global;
use tc_lines::{next_word, small_number};
use tc_link::Link;
use tc_queues::Octets;

/// A parsed line for a live receiver.
#[derive(Debug, Drop, PartialEq, Eq)]
pub enum LiveLine {
    /// A line of a script.
    Script(Line),
    /// The flags of the link that a virtual channel reports from now on.
    Link { vcid: u8, link: Link },
    /// A request for a report on a virtual channel.
    Report(u8),
    /// A release of the oldest data field in the buffer of a virtual channel, followed by takes of all items that wait
    /// in the channel's queues.
    Deliver(u8),
    /// A collection: takes of all items that wait in the queues of a virtual channel.
    Collect(u8),
    /// A candidate: octets that a CLTU carried, which should be one frame and the fill after it.
    Candidate(Octets),
}

/// Parses a line, which is given without its line feed, or returns the first reason why its words are bad. Memory is
/// allocated only for the octets of a frame or a candidate. If it runs out, the reason is `NoMemory`.
#[tactic(auto, unfolding(crate::specs::LiveLine::live_line_of))]
pub fn parse_live_line(alloc: Global, octets: &[u8]) -> Result<LiveLine, Reason>
    ensures line { IfOk result (λ line. live_line_of (words octets.now) ≡ Ok line) }
    ensures reason { IfErr result (λ reason. (reason ≡ Reason.NoMemory) ⊎ (live_line_of (words octets.now) ≡ Err reason)) }
{
    let Some((command, arguments)) = next_word(octets) else {
        return Ok(LiveLine::Script(Line::Blank));
    };
    if command == b"link".as_slice() {
        link(arguments)
    } else if command == b"report".as_slice() {
        report(arguments)
    } else if command == b"deliver".as_slice() {
        deliver(arguments)
    } else if command == b"collect".as_slice() {
        collect(arguments)
    } else if command == b"candidate".as_slice() {
        candidate(alloc, arguments)
    } else {
        Ok(LiveLine::Script(parse_line(alloc, octets)?))
    }
}

fn link(arguments: &[u8]) -> Result<LiveLine, Reason>
    ensures line { IfOk result (λ line. link_command (words arguments.now) ≡ Ok line) }
    ensures reason { IfErr result (λ reason. link_command (words arguments.now) ≡ Err reason) }
{
    let (vcid, no_rf, no_bit_lock) = three_arguments(arguments)?;
    Ok(LiveLine::Link {
        vcid: small_number(vcid)?,
        link: Link {
            no_rf: flag(no_rf)?,
            no_bit_lock: flag(no_bit_lock)?,
        },
    })
}

fn report(arguments: &[u8]) -> Result<LiveLine, Reason>
    ensures line { IfOk result (λ line. report_command (words arguments.now) ≡ Ok line) }
    ensures reason { IfErr result (λ reason. report_command (words arguments.now) ≡ Err reason) }
{
    let (vcid, rest) = next_argument(arguments)?;
    no_more(rest)?;
    Ok(LiveLine::Report(small_number(vcid)?))
}

fn deliver(arguments: &[u8]) -> Result<LiveLine, Reason>
    ensures line { IfOk result (λ line. deliver_command (words arguments.now) ≡ Ok line) }
    ensures reason { IfErr result (λ reason. deliver_command (words arguments.now) ≡ Err reason) }
{
    let (vcid, rest) = next_argument(arguments)?;
    no_more(rest)?;
    Ok(LiveLine::Deliver(small_number(vcid)?))
}

fn collect(arguments: &[u8]) -> Result<LiveLine, Reason>
    ensures line { IfOk result (λ line. collect_command (words arguments.now) ≡ Ok line) }
    ensures reason { IfErr result (λ reason. collect_command (words arguments.now) ≡ Err reason) }
{
    let (vcid, rest) = next_argument(arguments)?;
    no_more(rest)?;
    Ok(LiveLine::Collect(small_number(vcid)?))
}

fn candidate(alloc: Global, arguments: &[u8]) -> Result<LiveLine, Reason>
    ensures line { IfOk result (λ line. candidate_command (words arguments.now) ≡ Ok line) }
    ensures reason { IfErr result (λ reason. (reason ≡ Reason.NoMemory) ⊎ (candidate_command (words arguments.now) ≡ Err reason)) }
{
    let (digits, rest) = next_argument(arguments)?;
    no_more(rest)?;
    match hex::decode(alloc, digits) {
        Ok(octets) => Ok(LiveLine::Candidate(Octets::from(octets))),
        Err(FromHexError::OutOfMemory) => Err(Reason::NoMemory),
        Err(_) => Err(Reason::BadHex),
    }
}

// Parses a word that is a flag: 0 or 1. The call fails for any other word.
fn flag(word: &[u8]) -> Result<bool, Reason>
    ensures { MatchResult result (λ flag. flag_word word.now ≡ Ok flag) (λ reason. flag_word word.now ≡ Err reason) }
{
    let number = small_number(word)?;
    if number == 0 {
        Ok(false)
    } else if number == 1 {
        Ok(true)
    } else {
        Err(Reason::BadNumber)
    }
}
