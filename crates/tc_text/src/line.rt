//! Lines of a script.

ghost use Rattle.std.specs.Prelude.{◌≡◌, ◌⊎◌, option_map, IfOk, IfErr, MatchResult};
ghost use Rattle.tc_lines.specs.Word.{words};
ghost use Rattle.tc_text.specs.Line.{line_of, channel_command, segmented_of, queue_command, map_command, frame_command, release_command, take_command, unit_command, clcw_command};

use crate::fault::Reason;
use crate::word::{is_text, last_argument, next_argument, no_more, three_arguments, two_arguments};
use hex::FromHexError;
use std::alloc::Global;
use tc_lines::{large_number, next_word, small_number};
use tc_queues::Octets;

/// A parsed line of a script.
#[derive(Debug, Drop, PartialEq, Eq)]
pub enum Line {
    /// A line without words, or a comment.
    Blank,
    /// A virtual channel with its window's width, the number of data fields that its buffer holds,
    /// the first V(R), and a flag that is set if data fields begin with a segment header.
    Channel {
        vcid: u8,
        width: u8,
        buffer: u8,
        first: u8,
        segmented: bool,
    },
    /// A packet queue of a virtual channel, with its APID and the number of packets that it holds.
    Queue {
        vcid: u8,
        apid: u16,
        capacity: u16,
    },
    /// A chosen MAP of a virtual channel, with the number of units that its queue holds.
    Map {
        vcid: u8,
        map: u8,
        capacity: u16,
    },
    /// Octets that arrive at the receiver.
    Frame(Octets),
    /// A release of the oldest data field in the buffer of a virtual channel.
    Release(u8),
    /// A take of the oldest packet that waits for an APID, with the virtual channel and the APID.
    Take(u8, u16),
    /// A take of the oldest unit that waits for a MAP, with the virtual channel and the MAP.
    Unit(u8, u8),
    /// A request for the CLCW of a virtual channel.
    Clcw(u8),
}

/// Parses a line, which is given without its line feed, or returns the first reason why its words are bad. Memory is
/// allocated only for the octets of a frame. If it runs out, the reason is `NoMemory`.
#[tactic(auto, unfolding(crate::specs::Line::line_of))]
pub fn parse_line(alloc: Global, octets: &[u8]) -> Result<Line, Reason>
    ensures line { IfOk result (λ line. line_of (words octets.now) ≡ Ok line) }
    ensures reason { IfErr result (λ reason. (reason ≡ Reason.NoMemory) ⊎ (line_of (words octets.now) ≡ Err reason)) }
{
    let Some((command, arguments)) = next_word(octets) else {
        return Ok(Line::Blank);
    };
    if command[0] == b'#' {
        return Ok(Line::Blank);
    }
    if is_text(command, b"channel") {
        return channel(arguments);
    }
    if is_text(command, b"queue") {
        return queue(arguments);
    }
    if is_text(command, b"map") {
        return map(arguments);
    }
    if is_text(command, b"frame") {
        return frame(alloc, arguments);
    }
    if is_text(command, b"release") {
        return release(arguments);
    }
    if is_text(command, b"take") {
        return take(arguments);
    }
    if is_text(command, b"unit") {
        return unit(arguments);
    }
    if is_text(command, b"clcw") {
        return clcw(arguments);
    }
    Err(Reason::UnknownCommand)
}

fn channel(arguments: &[u8]) -> Result<Line, Reason>
    ensures line { IfOk result (λ line. channel_command (words arguments.now) ≡ Ok line) }
    ensures reason { IfErr result (λ reason. channel_command (words arguments.now) ≡ Err reason) }
{
    let (vcid, rest) = next_argument(arguments)?;
    let (width, rest) = next_argument(rest)?;
    let (buffer, rest) = next_argument(rest)?;
    let (first, rest) = next_argument(rest)?;
    let option = last_argument(rest)?;
    Ok(Line::Channel {
        vcid: small_number(vcid)?,
        width: small_number(width)?,
        buffer: small_number(buffer)?,
        first: small_number(first)?,
        segmented: is_segmented(option)?,
    })
}

// Returns whether data fields of a channel begin with a segment header. They do if the line has no option, and they
// don't if the option is `plain`. The call fails for any other option.
fn is_segmented(option: Option<&[u8]>) -> Result<bool, Reason>
    ensures { MatchResult result
        (λ segmented. segmented_of (option_map (λ word. word.now) option.entry) ≡ Ok segmented)
        (λ reason. segmented_of (option_map (λ word. word.now) option.entry) ≡ Err reason) }
{
    match option {
        None => Ok(true),
        Some(word) if word == b"plain".as_slice() => Ok(false),
        Some(_) => Err(Reason::BadOption),
    }
}

fn queue(arguments: &[u8]) -> Result<Line, Reason>
    ensures line { IfOk result (λ line. queue_command (words arguments.now) ≡ Ok line) }
    ensures reason { IfErr result (λ reason. queue_command (words arguments.now) ≡ Err reason) }
{
    let (vcid, apid, capacity) = three_arguments(arguments)?;
    Ok(Line::Queue {
        vcid: small_number(vcid)?,
        apid: large_number(apid)?,
        capacity: large_number(capacity)?,
    })
}

fn map(arguments: &[u8]) -> Result<Line, Reason>
    ensures line { IfOk result (λ line. map_command (words arguments.now) ≡ Ok line) }
    ensures reason { IfErr result (λ reason. map_command (words arguments.now) ≡ Err reason) }
{
    let (vcid, map, capacity) = three_arguments(arguments)?;
    Ok(Line::Map {
        vcid: small_number(vcid)?,
        map: small_number(map)?,
        capacity: large_number(capacity)?,
    })
}

fn frame(alloc: Global, arguments: &[u8]) -> Result<Line, Reason>
    ensures line { IfOk result (λ line. frame_command (words arguments.now) ≡ Ok line) }
    ensures reason { IfErr result (λ reason. (reason ≡ Reason.NoMemory) ⊎ (frame_command (words arguments.now) ≡ Err reason)) }
{
    let (digits, rest) = next_argument(arguments)?;
    no_more(rest)?;
    match hex::decode(alloc, digits) {
        Ok(octets) => Ok(Line::Frame(Octets::from(octets))),
        Err(FromHexError::OutOfMemory) => Err(Reason::NoMemory),
        Err(_) => Err(Reason::BadHex),
    }
}

fn release(arguments: &[u8]) -> Result<Line, Reason>
    ensures line { IfOk result (λ line. release_command (words arguments.now) ≡ Ok line) }
    ensures reason { IfErr result (λ reason. release_command (words arguments.now) ≡ Err reason) }
{
    let (vcid, rest) = next_argument(arguments)?;
    no_more(rest)?;
    Ok(Line::Release(small_number(vcid)?))
}

fn take(arguments: &[u8]) -> Result<Line, Reason>
    ensures line { IfOk result (λ line. take_command (words arguments.now) ≡ Ok line) }
    ensures reason { IfErr result (λ reason. take_command (words arguments.now) ≡ Err reason) }
{
    let (vcid, apid) = two_arguments(arguments)?;
    Ok(Line::Take(small_number(vcid)?, large_number(apid)?))
}

fn unit(arguments: &[u8]) -> Result<Line, Reason>
    ensures line { IfOk result (λ line. unit_command (words arguments.now) ≡ Ok line) }
    ensures reason { IfErr result (λ reason. unit_command (words arguments.now) ≡ Err reason) }
{
    let (vcid, map) = two_arguments(arguments)?;
    Ok(Line::Unit(small_number(vcid)?, small_number(map)?))
}

fn clcw(arguments: &[u8]) -> Result<Line, Reason>
    ensures line { IfOk result (λ line. clcw_command (words arguments.now) ≡ Ok line) }
    ensures reason { IfErr result (λ reason. clcw_command (words arguments.now) ≡ Err reason) }
{
    let (vcid, rest) = next_argument(arguments)?;
    no_more(rest)?;
    Ok(Line::Clcw(small_number(vcid)?))
}
