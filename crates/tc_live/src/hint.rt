//! The answers to bad lines: the reason, and a hint on how to mend the line.

ghost use Rattle.std.specs.Prelude.{◌≡◌};
ghost use Rattle.tc_lines.specs.Word.{words};
ghost use Rattle.tc_live.specs.Hint.{bad_word_text, bounds_text, command_form_text, first_misfit, is_marked, line_hint_text, most_of, number_hint_text, numbers_behind, takes_word, unknown_text};

use tc_lines::{large_number, next_word};
use tc_text::Reason;

/// Returns the text before a reason: `bad` and a space, or an empty text if the reason begins with `bad`.
pub(crate) fn word_before(reason: Reason) -> &'static str
    ensures { result.now ≡ bad_word_text reason }
{
    match reason {
        Reason::BadNumber
        | Reason::BadHex
        | Reason::BadVcid
        | Reason::BadWindow
        | Reason::BadBuffer
        | Reason::BadApid
        | Reason::BadCapacity
        | Reason::BadOption
        | Reason::BadMap
        | Reason::BadUnits => "",
        _ => "bad ",
    }
}

/// Returns the hint on how to mend the line. It lists the commands, shows the form of the line's command, or gives the
/// bounds or the form of the wrong word. It is empty if the reason has no hint.
pub(crate) fn hint_for(octets: &[u8], reason: Reason) -> &'static str
    ensures { result.now ≡ line_hint_text (words octets.now) reason }
{
    match reason {
        Reason::UnknownCommand => unknown(octets),
        Reason::WordCount => form(octets),
        Reason::BadNumber => number_hint(octets),
        Reason::BadHex => ": HEX is two hexadecimal digits for each octet",
        Reason::BadOption => ": write plain or nothing after VR",
        Reason::BadVcid => Number::Vcid.bounds(),
        Reason::BadWindow => Number::Width.bounds(),
        Reason::BadBuffer => Number::Buffer.bounds(),
        Reason::BadApid => Number::Apid.bounds(),
        Reason::BadCapacity => Number::Capacity.bounds(),
        Reason::BadMap => Number::Map.bounds(),
        Reason::BadUnits => Number::Capacity.bounds(),
        _ => "",
    }
}

// Returns the list of the commands, or a note that the line begins with a byte order mark.
fn unknown(octets: &[u8]) -> &'static str
    ensures { result.now ≡ unknown_text (words octets.now) }
{
    match next_word(octets) {
        Some((command, _arguments)) if begins_with_mark(command) => {
            ": the line begins with a byte order mark; save the file without it"
        }
        _ => {
            ": use channel, queue, map, frame, release, take, unit, clcw, link, report, deliver, collect or candidate"
        }
    }
}

// Returns whether a word begins with the byte order mark of UTF-8 or UTF-16.
fn begins_with_mark(word: &[u8]) -> bool
    ensures { result ≡ is_marked word.now }
{
    matches!(
        word,
        [0xef, 0xbb, 0xbf, ..] | [0xff, 0xfe, ..] | [0xfe, 0xff, ..]
    )
}

// Returns the form of the command that a line begins with, or an empty text if the line doesn't begin with a command.
#[tactic(auto, unfolding(crate::specs::Hint::command_form_text))]
fn form(octets: &[u8]) -> &'static str
    ensures { result.now ≡ command_form_text (words octets.now) }
{
    let Some((command, _arguments)) = next_word(octets) else {
        return "";
    };
    if command == b"channel".as_slice() {
        ": write channel VC WIDTH BUFFER VR [plain]"
    } else if command == b"queue".as_slice() {
        ": write queue VC APID CAPACITY"
    } else if command == b"map".as_slice() {
        ": write map VC MAP CAPACITY"
    } else if command == b"frame".as_slice() {
        ": write frame HEX, octets without spaces"
    } else if command == b"release".as_slice() {
        ": write release VC"
    } else if command == b"take".as_slice() {
        ": write take VC APID"
    } else if command == b"unit".as_slice() {
        ": write unit VC MAP"
    } else if command == b"clcw".as_slice() {
        ": write clcw VC"
    } else if command == b"link".as_slice() {
        ": write link VC RF BL"
    } else if command == b"report".as_slice() {
        ": write report VC"
    } else if command == b"deliver".as_slice() {
        ": write deliver VC"
    } else if command == b"collect".as_slice() {
        ": write collect VC"
    } else if command == b"candidate".as_slice() {
        ": write candidate HEX, octets without spaces"
    } else {
        ""
    }
}

/// A word of a line that is a number.
#[derive(Clone, Copy)]
pub(crate) enum Number {
    Vcid,
    Width,
    Buffer,
    First,
    Apid,
    Capacity,
    Map,
    NoRf,
    NoBitLock,
}

impl Number {
    // Returns the name of the number in the form of its command, and its bounds.
    fn bounds(self) -> &'static str
        ensures { result.now ≡ bounds_text self }
    {
        match self {
            Number::Vcid => ": VC is 0 to 63",
            Number::Width => ": WIDTH is even, 2 to 254",
            Number::Buffer => ": BUFFER is 1 to 64",
            Number::First => ": VR is 0 to 255",
            Number::Apid => ": APID is 0 to 2046",
            Number::Capacity => ": CAPACITY is 1 to 256",
            Number::Map => ": MAP is 0 to 63",
            Number::NoRf => ": RF is 0 or 1",
            Number::NoBitLock => ": BL is 0 or 1",
        }
    }

    // Returns the largest value that the parser accepts for the number. The bounds in the hint may be narrower.
    fn most(self) -> u16
        ensures { result ≡ most_of self }
    {
        match self {
            Number::Apid => 65_535,
            Number::Capacity => 65_535,
            Number::NoRf => 1,
            Number::NoBitLock => 1,
            _ => 255,
        }
    }

    // Returns whether the parser accepts this word for the number.
    fn takes(self, word: &[u8]) -> bool
        ensures { result ≡ takes_word self word.now }
    {
        match large_number(word) {
            Ok(number) => number <= self.most(),
            Err(_) => false,
        }
    }
}

// Returns the bounds of the first number whose word can't be parsed, or an empty text if all words can be parsed.
fn number_hint(octets: &[u8]) -> &'static str
    ensures { result.now ≡ number_hint_text (words octets.now) }
{
    let Some((command, arguments)) = next_word(octets) else {
        return "";
    };
    match misfit(numbers(command), arguments) {
        Some(number) => number.bounds(),
        None => "",
    }
}

// Returns the numbers after a command, in order. A command that isn't named here counts as one with a channel's id
// alone.
#[tactic(auto, unfolding(crate::specs::Hint::numbers_behind))]
fn numbers(command: &[u8]) -> &'static [Number]
    ensures { result.now ≡ numbers_behind command.now }
{
    if command == b"channel".as_slice() {
        &[Number::Vcid, Number::Width, Number::Buffer, Number::First]
    } else if command == b"queue".as_slice() {
        &[Number::Vcid, Number::Apid, Number::Capacity]
    } else if command == b"map".as_slice() {
        &[Number::Vcid, Number::Map, Number::Capacity]
    } else if command == b"take".as_slice() {
        &[Number::Vcid, Number::Apid]
    } else if command == b"unit".as_slice() {
        &[Number::Vcid, Number::Map]
    } else if command == b"link".as_slice() {
        &[Number::Vcid, Number::NoRf, Number::NoBitLock]
    } else {
        &[Number::Vcid]
    }
}

// Returns the first of the numbers whose word can't be parsed, or `None` if all words for the numbers can be parsed.
// The words of the last numbers may be missing.
#[tactic(auto, using(crate::proofs::Hints::none_left))]
fn misfit(numbers: &[Number], arguments: &[u8]) -> Option<Number>
    ensures { result ≡ first_misfit numbers.now (words arguments.now) }
{
    let mut rest = arguments;
    for number in numbers {
        let Some((word, after)) = next_word(rest) else {
            return None;
        };
        if !number.takes(word) {
            return Some(*number);
        }
        rest = after;
    }
    None
}
