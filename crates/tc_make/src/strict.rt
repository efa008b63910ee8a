//! A writer that fails after the answer to the first bad line.

use std::io;
use std::io::{ErrorKind, Write};

// The text with which the answer to a bad line begins.
const BAD: &[u8] = b"bad ";

/// A writer that passes answers on to `writer`. Once it has passed on a line that begins with `bad `, each flush fails
/// after it has flushed `writer`.
#[derive(Drop)]
pub(crate) struct Strict<W: Write + Drop> {
    writer: W,
    // The number of octets of the line so far, if they are the first octets of `BAD`, and otherwise `None`.
    alike: Option<usize>,
    has_bad: bool,
}

impl<W: Write + Drop> Strict<W> {
    pub(crate) fn new(writer: W) -> Strict<W> {
        Strict {
            writer,
            alike: Some(0),
            has_bad: false,
        }
    }

    /// Returns whether a line that begins with `bad ` was passed on.
    pub(crate) fn has_bad(&self) -> bool {
        self.has_bad
    }

    fn look_at(&mut self, octet: u8) {
        self.alike = match self.alike {
            _ if octet == b'\n' => Some(0),
            Some(count) if BAD.get(count) == Some(&octet) => Some(count.saturating_add(1)),
            _ => None,
        };
        self.has_bad |= self.alike == Some(BAD.len());
    }
}

impl<W: Write + Drop> Write for Strict<W> {
    fn write(&mut self, buf: &[u8]) -> io::Result<usize> {
        let count = self.writer.write(buf)?;
        for octet in buf.iter().take(count) {
            self.look_at(*octet);
        }
        Ok(count)
    }

    fn flush(&mut self) -> io::Result<()> {
        self.writer.flush()?;
        if self.has_bad {
            return Err(io::Error::from(ErrorKind::Other));
        }
        Ok(())
    }
}
