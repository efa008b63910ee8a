//! Streams that fail.

use std::alloc::Global;
use std::io;
use std::io::{ErrorKind, Read, Write};

/// A reader that gives at most `most` octets at each read, and fails at the read `fails_at`.
#[derive(Drop)]
pub struct Failing<'a> {
    rest: &'a [u8],
    most: usize,
    reads: u32,
    fails_at: u32,
}

impl<'a> Failing<'a> {
    /// Creates a reader of these octets that gives at most `most` octets at each read, and fails at the read
    /// `fails_at`. Reads are numbered from 1, and the reader fails at no read if `fails_at` is 0.
    pub fn new(octets: &'a [u8], most: usize, fails_at: u32) -> Failing<'a> {
        Failing {
            rest: octets,
            most,
            reads: 0,
            fails_at,
        }
    }

    /// Returns the number of reads.
    pub fn reads(&self) -> u32 {
        self.reads
    }
}

impl Read for Failing<'_> {
    fn read(&mut self, buf: &mut [u8]) -> io::Result<usize> {
        self.reads = self.reads.saturating_add(1);
        if self.reads == self.fails_at {
            return Err(io::Error::from(ErrorKind::Other));
        }
        let count = self.most.min(self.rest.len()).min(buf.len());
        let (given, rest) = self.rest.split_at(count);
        buf[..count].copy_from_slice(given);
        self.rest = rest;
        Ok(count)
    }
}

/// A writer that keeps the octets that are written, may fail at one write or at each flush, and counts both.
#[derive(Drop)]
pub struct Watched {
    kept: Vec<u8>,
    writes: u32,
    fails_at: u32,
    flushes: u32,
    fails_to_flush: bool,
}

impl Watched {
    /// Creates a writer that fails at the write `fails_at`, numbered from 1, or at no write if `fails_at` is 0. If
    /// `fails_to_flush` is set, it fails at each flush.
    pub fn new(alloc: Global, fails_at: u32, fails_to_flush: bool) -> Watched {
        Watched {
            kept: Vec::new(alloc),
            writes: 0,
            fails_at,
            flushes: 0,
            fails_to_flush,
        }
    }

    /// Returns all octets that were written.
    pub fn kept(&self) -> &[u8] {
        &self.kept
    }

    /// Returns the number of writes.
    pub fn writes(&self) -> u32 {
        self.writes
    }

    /// Returns the number of flushes.
    pub fn flushes(&self) -> u32 {
        self.flushes
    }
}

impl Write for Watched {
    fn write(&mut self, buf: &[u8]) -> io::Result<usize> {
        self.writes = self.writes.saturating_add(1);
        if self.writes == self.fails_at {
            return Err(io::Error::from(ErrorKind::Other));
        }
        self.kept.extend_from_slice(buf)?;
        Ok(buf.len())
    }

    fn flush(&mut self) -> io::Result<()> {
        self.flushes = self.flushes.saturating_add(1);
        if self.fails_to_flush {
            return Err(io::Error::from(ErrorKind::Other));
        }
        Ok(())
    }
}
