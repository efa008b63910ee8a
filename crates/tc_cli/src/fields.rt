//! A check of whether the frames of a script end with frame error control fields.

ghost use Rattle.std.specs.Prelude.{◌≤◌, length};

use memchr::{memchr, memrchr};
use std::alloc::Global;
use tc_edges::fecf::without_field;
use tc_text::{Line, next_line, parse_line};

/// Returns true if a script that was carried out has a frame, and if each of its frames is whole and ends with its
/// field. Returns false if memory runs out. The result only decides on a hint for the user, and no contract depends on
/// it.
pub(crate) fn each_frame_has_its_field(alloc: Global, script: &[u8]) -> bool {
    let mut has_frame = false;
    let mut rest = from_next_frame(script);
    while let Some((line, after)) = next_line(rest) {
        match has_field(alloc, line) {
            Some(true) => has_frame = true,
            Some(false) => return false,
            None => {}
        }
        rest = from_next_frame(after);
    }
    has_frame
}

// Returns the lines from the first one that has an `f` to the end. No line before it can be a frame line.
fn from_next_frame(lines: &[u8]) -> &[u8]
    ensures { length result.now ≤ length lines.now }
{
    let Some(place) = memchr(b'f', lines) else {
        return &[];
    };
    match memrchr(b'\n', &lines[..place]) {
        Some(feed) => &lines[feed + 1..],
        None => lines,
    }
}

// Returns whether the frame of a line is whole and ends with its field, or `None` if the line isn't a frame line. A
// line that can't be parsed counts as a frame without a field.
fn has_field(alloc: Global, line: &[u8]) -> Option<bool> {
    match parse_line(alloc, line) {
        Ok(Line::Frame(octets)) => Some(without_field(alloc, octets.as_slice()).is_ok()),
        Ok(_) => None,
        Err(_) => Some(false),
    }
}
