//! Readers and writers that give and take in pieces, and that fail.

ghost use Rattle.std.specs.Prelude.{◌<◌, Some};

use std::cell::Cell;
use std::io::{self, ErrorKind, Read, Write};

/// Gives a text in pieces of at most `most` bytes, and fails once its calls are used up.
#[derive(Drop)]
pub struct Giver<'a> {
    pub rest: &'a [u8],
    pub most: usize,
    pub calls: usize,
    ghost gives: { 0 < most },
}

impl Read for Giver<'_> {
    ghost remaining = { λ r. Some r.rest.now };

    fn read(&mut self, buf: &mut [u8]) -> io::Result<usize> {
        if self.calls == 0 {
            return Err(io::Error::from(ErrorKind::Other));
        }
        self.calls -= 1;
        let n = self.most.min(self.rest.len()).min(buf.len());
        buf[..n].copy_from_slice(&self.rest[..n]);
        self.rest = &self.rest[n..];
        Ok(n)
    }
}

/// Takes at most `most` bytes a call, and fails once its calls are used up; a flush is a call too.
#[derive(Drop)]
pub struct Taker {
    pub bytes: Vec<u8>,
    pub most: usize,
    pub calls: usize,
}

impl Write for Taker {
    ghost contents = { λ w. Some w.bytes.items };

    fn write(&mut self, buf: &[u8]) -> io::Result<usize> {
        if self.calls == 0 {
            return Err(io::Error::from(ErrorKind::Other));
        }
        self.calls -= 1;
        let n = self.most.min(buf.len());
        match self.bytes.extend_from_slice(&buf[..n]) {
            Ok(()) => Ok(n),
            Err(_) => Err(io::Error::from(ErrorKind::OutOfMemory)),
        }
    }

    fn flush(&mut self) -> io::Result<()> {
        if self.calls == 0 {
            return Err(io::Error::from(ErrorKind::Other));
        }
        self.calls -= 1;
        Ok(())
    }
}

/// Gives the letter `a` without end.
#[derive(Drop)]
pub struct Endless;

impl Read for Endless {
    fn read(&mut self, buf: &mut [u8]) -> io::Result<usize> {
        buf.fill(b'a');
        Ok(buf.len())
    }
}

/// A script with its answers.
#[derive(Drop, Clone, Copy)]
pub struct Script {
    pub text: &'static [u8],
    pub answers: &'static [u8],
    /// Each command: where its last line ends in the text, and where its answer ends in the answers.
    pub commands: &'static [(usize, usize)],
}

/// How many bytes of the answers are due once `given` bytes of the script have been read.
pub fn due(commands: &[(usize, usize)], given: usize) -> usize {
    let mut answered = 0;
    for (script_end, answer_end) in commands {
        if *script_end <= given {
            answered = *answer_end;
        }
    }
    answered
}

/// How many bytes of a script have been given, and how many bytes of the answers have been flushed.
#[derive(Drop)]
pub struct Log {
    pub given: Cell<usize>,
    pub flushed: Cell<usize>,
}

/// Gives a text in pieces of at most `most` bytes. Before each it looks whether the answers that are due have been flushed,
/// and nothing else has; if not, it fails.
#[derive(Drop)]
pub struct WatchingGiver<'a> {
    pub rest: &'a [u8],
    pub most: usize,
    pub log: &'a Log,
    /// Each command of the script: where its last line ends, and where its answer ends.
    pub commands: &'a [(usize, usize)],
    ghost gives: { 0 < most },
}

impl Read for WatchingGiver<'_> {
    ghost remaining = { λ r. Some r.rest.now };

    fn read(&mut self, buf: &mut [u8]) -> io::Result<usize> {
        if self.log.flushed.get() != due(self.commands, self.log.given.get()) {
            return Err(io::Error::from(ErrorKind::Other));
        }
        let n = self.most.min(self.rest.len()).min(buf.len());
        buf[..n].copy_from_slice(&self.rest[..n]);
        self.rest = &self.rest[n..];
        self.log.given.set(self.log.given.get().saturating_add(n));
        Ok(n)
    }
}

/// Takes all bytes, and notes in the log how many have been flushed.
#[derive(Drop)]
pub struct NotingTaker<'a> {
    pub bytes: Vec<u8>,
    pub log: &'a Log,
}

impl Write for NotingTaker<'_> {
    ghost contents = { λ w. Some w.bytes.items };

    fn write(&mut self, buf: &[u8]) -> io::Result<usize> {
        match self.bytes.extend_from_slice(buf) {
            Ok(()) => Ok(buf.len()),
            Err(_) => Err(io::Error::from(ErrorKind::OutOfMemory)),
        }
    }

    fn flush(&mut self) -> io::Result<()> {
        self.log.flushed.set(self.bytes.len());
        Ok(())
    }
}
