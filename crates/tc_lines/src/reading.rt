//! Reading a line.

ghost use Rattle.std.specs.Prelude.{◌≡◌, true, false, ◌≤◌, ◌+◌, ◌++◌, length, nat_lt, take, IfOk, OnOk};
ghost use Rattle.tc_lines.specs.Reading.{IsFront, IsLineRead, IsPartRead, nothing_yet};

use memchr::memchr;
use std::alloc::AllocError;
use std::io;
use std::io::{BufRead, ErrorKind};

/// The result of reading a line whose octets are kept elsewhere.
#[derive(Clone, Copy)]
pub(crate) struct LineRead {
    /// Whether a line feed ended the line. If not, the input ended. The line is then empty if nothing came after the
    /// last line feed.
    pub(crate) ended: bool,
    /// Whether the line has more octets than the limit. In that case only its front is kept.
    pub(crate) too_long: bool,
}

/// Reads a line of any length, and keeps its octets without the line feed, at most `limit` of them.
///
/// A line ends at a line feed or at the end of the input. The previous contents of `line` are dropped. A read that is
/// interrupted is repeated.
pub(crate) fn read_line<R: BufRead>(
    reader: &mut R,
    limit: usize,
    line: &mut Vec<u8>,
) -> io::Result<LineRead>
    ensures { IfOk result (IsLineRead limit (R.remaining reader.old) (R.remaining reader.new) line.new.items) }
{
    line.clear();
    let mut too_long = false;
    for _part in 0..u64::MAX {
        let part = read_part(reader, limit, line)?;
        too_long |= part.over;
        if !part.goes_on {
            let ended = part.ended;
            return Ok(LineRead { ended, too_long });
        }
    }
    Err(io::Error::from(ErrorKind::TimedOut))
}

// The result of reading a part of a line.
#[derive(Clone, Copy)]
struct Part {
    // Whether the part was longer than the room for it.
    over: bool,
    // Whether more of the line may follow the part.
    goes_on: bool,
    // Whether a line feed followed the part.
    ended: bool,
}

// Reads the octets of a line that the reader has in its buffer, and adds them to the line up to its limit.
fn read_part<R: BufRead>(reader: &mut R, limit: usize, line: &mut Vec<u8>) -> io::Result<Part>
    requires { length line.old.items ≤ limit }
    ensures { IfOk result (IsPartRead limit (R.remaining reader.old) (R.remaining reader.new) line.old.items line.new.items) }
{
    let available = match reader.fill_buf() {
        Ok(available) => available,
        Err(error) => return after_error(error),
    };
    let front = front_of(available);
    let over = keep(line, limit, &available[..front.line])?;
    reader.consume(front.all);
    Ok(Part {
        over,
        goes_on: front.goes_on(),
        ended: front.ended,
    })
}

// If the read was interrupted, returns a part without octets, so that the read is repeated. Otherwise returns the
// error.
fn after_error(error: io::Error) -> io::Result<Part>
    ensures { IfOk result (λ part. part ≡ nothing_yet) }
{
    if error.kind() == ErrorKind::Interrupted {
        Ok(Part {
            over: false,
            goes_on: true,
            ended: false,
        })
    } else {
        Err(error)
    }
}

// The front of octets up to their first line feed: its length without the line feed, its length with it, and whether
// there is a line feed.
#[derive(Clone, Copy)]
struct Front {
    line: usize,
    all: usize,
    ended: bool,
}

impl Front {
    // Returns whether the line may continue after this front.
    fn goes_on(self) -> bool
        ensures more { result ≡ true → self.ended ≡ false }
        ensures end { result ≡ false → self.ended ≡ false → self.all ≡ 0 }
    {
        !self.ended && self.all > 0
    }
}

fn front_of(octets: &[u8]) -> Front
    ensures { IsFront octets.now result }
{
    match memchr(b'\n', octets) {
        Some(line) => Front {
            line,
            all: line + 1,
            ended: true,
        },
        None => Front {
            line: octets.len(),
            all: octets.len(),
            ended: false,
        },
    }
}

// Adds octets to a line up to its limit, and returns whether there were more than the limit allows.
fn keep(line: &mut Vec<u8>, limit: usize, part: &[u8]) -> Result<bool, AllocError>
    requires { length line.old.items ≤ limit }
    ensures kept { OnOk result (line.new.items ≡ take limit (line.old.items ++ part.now)) }
    ensures over { IfOk result (λ over. over ≡ nat_lt limit (length line.old.items + length part.now)) }
{
    let room = limit - line.len();
    let count = part.len().min(room);
    line.extend_from_slice(&part[..count])?;
    Ok(room < part.len())
}
