//! Streams that fail.
use std::io;
use std::io::{Error, ErrorKind, Read, Write};

/// Gives some octets, and then fails.
#[derive(Drop)]
pub(crate) struct Broken<'a> {
    octets: &'a [u8],
}

impl<'a> Broken<'a> {
    /// Gives these octets.
    pub fn new(octets: &'a [u8]) -> Broken<'a> {
        Broken { octets }
    }
}

impl Read for Broken<'_> {
    fn read(&mut self, buf: &mut [u8]) -> io::Result<usize> {
        match self.octets.split_first() {
            Some((first, rest)) if !buf.is_empty() => {
                buf[0] = *first;
                self.octets = rest;
                Ok(1)
            }
            _ => Err(Error::from(ErrorKind::TimedOut)),
        }
    }
}

/// Takes all, and then can't be flushed.
#[derive(Drop)]
pub(crate) struct Unflushed;

impl Write for Unflushed {
    fn write(&mut self, buf: &[u8]) -> io::Result<usize> {
        Ok(buf.len())
    }

    fn flush(&mut self) -> io::Result<()> {
        Err(Error::from(ErrorKind::StorageFull))
    }
}

/// Takes a number of octets, and then fails.
#[derive(Drop)]
pub(crate) struct Full {
    room: usize,
}

impl Full {
    /// Takes this number.
    pub fn new(room: usize) -> Full {
        Full { room }
    }
}

impl Write for Full {
    fn write(&mut self, buf: &[u8]) -> io::Result<usize> {
        if self.room == 0 {
            return Err(Error::from(ErrorKind::StorageFull));
        }
        let taken = buf.len().min(self.room);
        self.room -= taken;
        Ok(taken)
    }

    fn flush(&mut self) -> io::Result<()> {
        Ok(())
    }
}
