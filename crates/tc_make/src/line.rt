//! Lines and their meanings.

ghost use Rattle.std.specs.Prelude.{◌≡◌, ◌⊎◌, Some, None, map, IfOk, IfErr, IsErr, MatchResult};
ghost use Rattle.hex.specs.Hex.{decode_of};
ghost use Rattle.tc_lines.specs.Word.{words as words_of};
ghost use Rattle.tc_make.specs.Line.{maker_line_of, is_marked, link_line_of, packet_of, ad_of, bd_of, unlock_of, setvr_of, segments_of, tm_of, decoder_of, piece_of, search_of, frames_of, four_of, mode_word, segment_word, stream_of, sizing_of, framed_of, parted_of, sized_of, alone_of};
ghost use Rattle.tc_lines.specs.Number.{word_number};
ghost use Rattle.tc_lines.specs.Word.{is_comment as is_comment_word};

use crate::fault::Reason;
use crate::form::{Form, Number};
use crate::octets::Octets;
use hex::FromHexError;
use std::alloc::{AllocError, Global};
use tc_edges::cltu::Mode;
use tc_lines::{is_separator, large_number, small_number};
use tc_link::{Command, Header};
use tc_packet::{Part, Segment};

/// The virtual channel of Type-AD frames, and the N(S) of the first frame.
#[derive(Clone, Copy, Debug, PartialEq, Eq)]
pub struct Stream {
    pub scid: u16,
    pub vcid: u8,
    pub ns: u8,
}

/// The MAP of segments, and the number of octets of the unit that each segment except the last carries.
#[derive(Clone, Copy, Debug, PartialEq, Eq)]
pub struct Sizing {
    pub map: u8,
    pub size: u16,
}

/// An order for a telemetry frame: its spacecraft and virtual channel, its number of octets, and its operational
/// control field, for example a CLCW.
#[derive(Clone, Copy, Debug, PartialEq, Eq)]
pub struct TmOrder {
    pub scid: u16,
    pub vcid: u8,
    pub size: u16,
    pub control: [u8; 4],
}

/// A parsed line.
#[derive(Debug, Drop)]
pub enum Line {
    /// A line without words, or a comment.
    Blank,
    /// A packet with this APID, sequence count and data field.
    Packet {
        apid: u16,
        count: u16,
        octets: Octets,
    },
    /// A Type-AD or Type-BD frame that carries the octets. Its data field begins with the segment header, if one is
    /// given.
    Frame {
        header: Header,
        segment: Option<Segment>,
        octets: Octets,
    },
    /// A Type-BC frame with a control command for a virtual channel.
    Command {
        scid: u16,
        vcid: u8,
        command: Command,
    },
    /// A unit that is divided into segments, which Type-AD frames carry.
    Segments {
        stream: Stream,
        sizing: Sizing,
        unit: Octets,
    },
    /// Octets that are to be explained as a frame.
    Explain(Octets),
    /// Octets that are to be explained as a CLCW.
    Clcw(Octets),
    /// Octets that a CLTU is to carry.
    Cltu(Octets),
    /// Octets to which the random sequence is to be added.
    Random(Octets),
    /// The next telemetry frame of a virtual channel.
    Tm(TmOrder),
    /// Octets that are to be explained as a telemetry frame.
    Telemetry(Octets),
    /// A new decoder for the stream with this id.
    Decoder {
        id: u8,
        mode: Mode,
    },
    /// The next octets of the stream with this id.
    Piece {
        id: u8,
        octets: Octets,
    },
    /// An order to the decoder of the stream with this id to look for a start sequence again.
    Search(u8),
    /// Octets that a CLTU carried, from which at most `most` frames are to be taken.
    Frames {
        most: u8,
        octets: Octets,
    },
}

/// Parses a line, which is given without its line feed. Its words and its octets are allocated.
#[tactic(auto, unfolding(crate::specs::Line::maker_line_of))]
pub fn parse_line(alloc: Global, octets: &[u8]) -> Result<Line, Reason>
    ensures line { IfOk result (λ line. maker_line_of (words_of octets.now) ≡ Ok line) }
    ensures reason { IfErr result (λ reason. (reason ≡ Reason.NoMemory) ⊎ (maker_line_of (words_of octets.now) ≡ Err reason)) }
{
    let words = words(alloc, octets).map_err(|_| Reason::NoMemory)?;
    let Some((command, arguments)) = words.split_first() else {
        return Ok(Line::Blank);
    };
    if is_comment(command) {
        Ok(Line::Blank)
    } else if *command == b"packet".as_slice() {
        packet(alloc, arguments)
    } else if *command == b"ad".as_slice() {
        ad(alloc, arguments)
    } else if *command == b"bd".as_slice() {
        bd(alloc, arguments)
    } else if *command == b"unlock".as_slice() {
        unlock(arguments)
    } else if *command == b"setvr".as_slice() {
        setvr(arguments)
    } else if *command == b"segments".as_slice() {
        segments(alloc, arguments)
    } else if *command == b"explain".as_slice() {
        Ok(Line::Explain(alone(alloc, Form::Explain, arguments)?))
    } else if *command == b"clcw".as_slice() {
        Ok(Line::Clcw(alone(alloc, Form::Clcw, arguments)?))
    } else {
        link_line(alloc, command, arguments)
    }
}

// Parses a line about CLTUs or telemetry frames.
#[tactic(auto, unfolding(crate::specs::Line::link_line_of))]
fn link_line(alloc: Global, command: &[u8], arguments: &[&[u8]]) -> Result<Line, Reason>
    ensures line { IfOk result (λ line. link_line_of command.now (map (λ word. word.now) arguments.now) ≡ Ok line) }
    ensures reason { IfErr result (λ reason. (reason ≡ Reason.NoMemory) ⊎
        (link_line_of command.now (map (λ word. word.now) arguments.now) ≡ Err reason)) }
{
    if command == b"cltu".as_slice() {
        Ok(Line::Cltu(alone(alloc, Form::Cltu, arguments)?))
    } else if command == b"random".as_slice() {
        Ok(Line::Random(alone(alloc, Form::Random, arguments)?))
    } else if command == b"tm".as_slice() {
        tm(alloc, arguments)
    } else if command == b"telemetry".as_slice() {
        Ok(Line::Telemetry(alone(alloc, Form::Telemetry, arguments)?))
    } else if command == b"decoder".as_slice() {
        decoder(arguments)
    } else if command == b"octets".as_slice() {
        piece(alloc, arguments)
    } else if command == b"search".as_slice() {
        search(arguments)
    } else if command == b"frames".as_slice() {
        frames(alloc, arguments)
    } else if begins_with_mark(command) {
        Err(Reason::Marked)
    } else {
        Err(Reason::UnknownCommand)
    }
}

// Returns whether a word begins with the byte order mark of UTF-8 or UTF-16.
fn begins_with_mark(word: &[u8]) -> bool
    ensures { result ≡ is_marked word.now }
{
    matches!(
        word,
        [0xef, 0xbb, 0xbf, ..] | [0xff, 0xfe, ..] | [0xfe, 0xff, ..]
    )
}

// Returns the words of a line, in order.
fn words(alloc: Global, line: &[u8]) -> Result<Vec<&[u8]>, AllocError>
    ensures { IfOk result (λ words. map (λ word. word.now) words.items ≡ words_of line.now) }
{
    line.split(|octet| is_separator(*octet))
        .filter(|word| !word.is_empty())
        .collect(alloc)
}

fn is_comment(word: &[u8]) -> bool
    ensures { result ≡ is_comment_word word.now }
{
    matches!(word, [b'#', ..])
}

fn packet(alloc: Global, words: &[&[u8]]) -> Result<Line, Reason>
    ensures line { IfOk result (λ line. packet_of (map (λ word. word.now) words.now) ≡ Ok line) }
    ensures reason { IfErr result (λ reason. (reason ≡ Reason.NoMemory) ⊎ (packet_of (map (λ word. word.now) words.now) ≡ Err reason)) }
{
    let [apid, count, digits] = words else {
        return Err(Reason::WordCount(Form::Packet));
    };
    Ok(Line::Packet {
        apid: large(Number::Apid, apid)?,
        count: large(Number::Count, count)?,
        octets: octets(alloc, digits)?,
    })
}

fn ad(alloc: Global, words: &[&[u8]]) -> Result<Line, Reason>
    ensures line { IfOk result (λ line. ad_of (map (λ word. word.now) words.now) ≡ Ok line) }
    ensures reason { IfErr result (λ reason. (reason ≡ Reason.NoMemory) ⊎ (ad_of (map (λ word. word.now) words.now) ≡ Err reason)) }
{
    let [scid, vcid, ns, map, digits] = words else {
        return Err(Reason::WordCount(Form::Ad));
    };
    let stream = read_stream(scid, vcid, ns)?;
    let segment = segment(map)?;
    let header = Header {
        bypass: false,
        control: false,
        scid: stream.scid,
        vcid: stream.vcid,
        ns: stream.ns,
    };
    frame(alloc, header, segment, digits)
}

fn bd(alloc: Global, words: &[&[u8]]) -> Result<Line, Reason>
    ensures line { IfOk result (λ line. bd_of (map (λ word. word.now) words.now) ≡ Ok line) }
    ensures reason { IfErr result (λ reason. (reason ≡ Reason.NoMemory) ⊎ (bd_of (map (λ word. word.now) words.now) ≡ Err reason)) }
{
    let [scid, vcid, map, digits] = words else {
        return Err(Reason::WordCount(Form::Bd));
    };
    let scid = large(Number::Scid, scid)?;
    let vcid = small(Number::Vcid, vcid)?;
    let segment = segment(map)?;
    let header = Header {
        bypass: true,
        control: false,
        scid,
        vcid,
        ns: 0,
    };
    frame(alloc, header, segment, digits)
}

fn unlock(words: &[&[u8]]) -> Result<Line, Reason>
    ensures line { IfOk result (λ line. unlock_of (map (λ word. word.now) words.now) ≡ Ok line) }
    ensures reason { IfErr result (λ reason. unlock_of (map (λ word. word.now) words.now) ≡ Err reason) }
{
    let [scid, vcid] = words else {
        return Err(Reason::WordCount(Form::Unlock));
    };
    Ok(Line::Command {
        scid: large(Number::Scid, scid)?,
        vcid: small(Number::Vcid, vcid)?,
        command: Command::Unlock,
    })
}

fn setvr(words: &[&[u8]]) -> Result<Line, Reason>
    ensures line { IfOk result (λ line. setvr_of (map (λ word. word.now) words.now) ≡ Ok line) }
    ensures reason { IfErr result (λ reason. setvr_of (map (λ word. word.now) words.now) ≡ Err reason) }
{
    let [scid, vcid, vr] = words else {
        return Err(Reason::WordCount(Form::SetVr));
    };
    Ok(Line::Command {
        scid: large(Number::Scid, scid)?,
        vcid: small(Number::Vcid, vcid)?,
        command: Command::SetVr(small(Number::Vr, vr)?),
    })
}

fn segments(alloc: Global, words: &[&[u8]]) -> Result<Line, Reason>
    ensures line { IfOk result (λ line. segments_of (map (λ word. word.now) words.now) ≡ Ok line) }
    ensures reason { IfErr result (λ reason. (reason ≡ Reason.NoMemory) ⊎ (segments_of (map (λ word. word.now) words.now) ≡ Err reason)) }
{
    let [scid, vcid, ns, map, size, digits] = words else {
        return Err(Reason::WordCount(Form::Segments));
    };
    let stream = read_stream(scid, vcid, ns)?;
    sized(alloc, stream, map, size, digits)
}

// Returns the line for a frame that carries the octets that `digits` spells.
fn frame(
    alloc: Global,
    header: Header,
    segment: Option<Segment>,
    digits: &[u8],
) -> Result<Line, Reason>
    ensures line { IfOk result (λ line. framed_of header segment digits.now ≡ Ok line) }
    ensures reason { IfErr result (λ reason. (reason ≡ Reason.NoMemory) ⊎ (framed_of header segment digits.now ≡ Err reason)) }
{
    Ok(Line::Frame {
        header,
        segment,
        octets: octets(alloc, digits)?,
    })
}

// Returns the line for a unit in segments of this MAP and this size. `digits` spells the unit.
fn sized(
    alloc: Global,
    stream: Stream,
    map: &[u8],
    size: &[u8],
    digits: &[u8],
) -> Result<Line, Reason>
    ensures line { IfOk result (λ line. sized_of stream map.now size.now digits.now ≡ Ok line) }
    ensures reason { IfErr result (λ reason. (reason ≡ Reason.NoMemory) ⊎ (sized_of stream map.now size.now digits.now ≡ Err reason)) }
{
    let sizing = read_sizing(map, size)?;
    parted(alloc, stream, sizing, digits)
}

// Returns the line for a unit in segments. `digits` spells the unit.
fn parted(alloc: Global, stream: Stream, sizing: Sizing, digits: &[u8]) -> Result<Line, Reason>
    ensures line { IfOk result (λ line. parted_of stream sizing digits.now ≡ Ok line) }
    ensures reason { IfErr result (λ reason. (reason ≡ Reason.NoMemory) ⊎ (parted_of stream sizing digits.now ≡ Err reason)) }
{
    Ok(Line::Segments {
        stream,
        sizing,
        unit: octets(alloc, digits)?,
    })
}

// Returns the octets that the only argument of a command spells.
fn alone(alloc: Global, form: Form, words: &[&[u8]]) -> Result<Octets, Reason>
    ensures octets { IfOk result (λ octets. alone_of form (map (λ word. word.now) words.now) ≡ Ok octets) }
    ensures reason { IfErr result (λ reason. (reason ≡ Reason.NoMemory) ⊎ (alone_of form (map (λ word. word.now) words.now) ≡ Err reason)) }
{
    let [digits] = words else {
        return Err(Reason::WordCount(form));
    };
    octets(alloc, digits)
}

fn tm(alloc: Global, words: &[&[u8]]) -> Result<Line, Reason>
    ensures line { IfOk result (λ line. tm_of (map (λ word. word.now) words.now) ≡ Ok line) }
    ensures reason { IfErr result (λ reason. (reason ≡ Reason.NoMemory) ⊎ (tm_of (map (λ word. word.now) words.now) ≡ Err reason)) }
{
    let [scid, vcid, size, digits] = words else {
        return Err(Reason::WordCount(Form::Tm));
    };
    Ok(Line::Tm(TmOrder {
        scid: large(Number::Scid, scid)?,
        vcid: small(Number::Vcid, vcid)?,
        size: large(Number::Size, size)?,
        control: four(alloc, digits)?,
    }))
}

fn decoder(words: &[&[u8]]) -> Result<Line, Reason>
    ensures line { IfOk result (λ line. decoder_of (map (λ word. word.now) words.now) ≡ Ok line) }
    ensures reason { IfErr result (λ reason. decoder_of (map (λ word. word.now) words.now) ≡ Err reason) }
{
    let [id, mode] = words else {
        return Err(Reason::WordCount(Form::Decoder));
    };
    Ok(Line::Decoder {
        id: small(Number::Id, id)?,
        mode: read_mode(mode)?,
    })
}

fn piece(alloc: Global, words: &[&[u8]]) -> Result<Line, Reason>
    ensures line { IfOk result (λ line. piece_of (map (λ word. word.now) words.now) ≡ Ok line) }
    ensures reason { IfErr result (λ reason. (reason ≡ Reason.NoMemory) ⊎ (piece_of (map (λ word. word.now) words.now) ≡ Err reason)) }
{
    let [id, digits] = words else {
        return Err(Reason::WordCount(Form::Octets));
    };
    Ok(Line::Piece {
        id: small(Number::Id, id)?,
        octets: octets(alloc, digits)?,
    })
}

fn search(words: &[&[u8]]) -> Result<Line, Reason>
    ensures line { IfOk result (λ line. search_of (map (λ word. word.now) words.now) ≡ Ok line) }
    ensures reason { IfErr result (λ reason. search_of (map (λ word. word.now) words.now) ≡ Err reason) }
{
    let [id] = words else {
        return Err(Reason::WordCount(Form::Search));
    };
    Ok(Line::Search(small(Number::Id, id)?))
}

fn frames(alloc: Global, words: &[&[u8]]) -> Result<Line, Reason>
    ensures line { IfOk result (λ line. frames_of (map (λ word. word.now) words.now) ≡ Ok line) }
    ensures reason { IfErr result (λ reason. (reason ≡ Reason.NoMemory) ⊎ (frames_of (map (λ word. word.now) words.now) ≡ Err reason)) }
{
    let [most, digits] = words else {
        return Err(Reason::WordCount(Form::Frames));
    };
    Ok(Line::Frames {
        most: small(Number::Most, most)?,
        octets: octets(alloc, digits)?,
    })
}

// Returns the number of at most 255 that a word spells.
fn small(number: Number, word: &[u8]) -> Result<u8, Reason>
    ensures { MatchResult result
        (λ n. word_number 255 word.now ≡ Some n)
        (λ reason. (word_number 255 word.now ≡ None) × (reason ≡ Reason.BadNumber number)) }
{
    small_number(word).map_err(|_| Reason::BadNumber(number))
}

// Returns the number of at most 65,535 that a word spells.
fn large(number: Number, word: &[u8]) -> Result<u16, Reason>
    ensures { MatchResult result
        (λ n. word_number 65535 word.now ≡ Some n)
        (λ reason. (word_number 65535 word.now ≡ None) × (reason ≡ Reason.BadNumber number)) }
{
    large_number(word).map_err(|_| Reason::BadNumber(number))
}

// Returns the stream of Type-AD frames that three words name.
fn read_stream(scid: &[u8], vcid: &[u8], ns: &[u8]) -> Result<Stream, Reason>
    ensures { MatchResult result
        (λ stream. stream_of scid.now vcid.now ns.now ≡ Ok stream)
        (λ reason. stream_of scid.now vcid.now ns.now ≡ Err reason) }
{
    Ok(Stream {
        scid: large(Number::Scid, scid)?,
        vcid: small(Number::Vcid, vcid)?,
        ns: small(Number::Ns, ns)?,
    })
}

// Returns the MAP and the size of segments that two words name.
fn read_sizing(map: &[u8], size: &[u8]) -> Result<Sizing, Reason>
    ensures { MatchResult result
        (λ sizing. sizing_of map.now size.now ≡ Ok sizing)
        (λ reason. sizing_of map.now size.now ≡ Err reason) }
{
    Ok(Sizing {
        map: small(Number::Map, map)?,
        size: large(Number::Size, size)?,
    })
}

// Returns the segment header that a word names. The word `plain` names none, and a number names an unsegmented one with
// this MAP id.
fn segment(word: &[u8]) -> Result<Option<Segment>, Reason>
    ensures { MatchResult result
        (λ segment. segment_word word.now ≡ Ok segment)
        (λ reason. segment_word word.now ≡ Err reason) }
{
    if word == b"plain".as_slice() {
        return Ok(None);
    }
    Ok(Some(Segment {
        part: Part::Unsegmented,
        map: small(Number::Map, word)?,
    }))
}

// Returns the octets that hexadecimal digits spell.
fn octets(alloc: Global, digits: &[u8]) -> Result<Octets, Reason>
    ensures octets { IfOk result (λ octets. decode_of digits.now ≡ Ok octets) }
    ensures reason { IfErr result (λ reason. (reason ≡ Reason.NoMemory) ⊎ ((reason ≡ Reason.BadHex) × IsErr (decode_of digits.now))) }
{
    match hex::decode(alloc, digits) {
        Ok(octets) => Ok(Octets::from(octets)),
        Err(FromHexError::OutOfMemory) => Err(Reason::NoMemory),
        Err(_) => Err(Reason::BadHex),
    }
}

// Returns the four octets that hexadecimal digits spell.
fn four(alloc: Global, digits: &[u8]) -> Result<[u8; 4], Reason>
    ensures octets { IfOk result (λ octets. four_of digits.now ≡ Ok octets) }
    ensures reason { IfErr result (λ reason. (reason ≡ Reason.NoMemory) ⊎ (four_of digits.now ≡ Err reason)) }
{
    let octets = octets(alloc, digits)?;
    let [a, b, c, d] = octets.as_slice() else {
        return Err(Reason::BadClcw);
    };
    Ok([*a, *b, *c, *d])
}

// Returns the decoding mode that a word names.
fn read_mode(word: &[u8]) -> Result<Mode, Reason>
    ensures { MatchResult result
        (λ mode. mode_word word.now ≡ Ok mode)
        (λ reason. mode_word word.now ≡ Err reason) }
{
    if word == b"detect".as_slice() {
        Ok(Mode::Detect)
    } else if word == b"correct".as_slice() {
        Ok(Mode::Correct)
    } else {
        Err(Reason::BadMode)
    }
}
