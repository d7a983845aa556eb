//! Streams over memory that give and take a few octets at a time, and fail.
use std::io;
use std::io::{ErrorKind, Read, Write};
use std::sync::atomic::{AtomicUsize, Ordering};

/// More octets than go out on any connection here. A stream has room for them from the start, so that want of memory is no write fault.
pub(crate) const ROOM: usize = 2_000_000;

/// Gives its octets a few at a time, and fails behind a number of reads. It sees how many octets had been written before its last read.
#[derive(Drop)]
pub(crate) struct Pieces<'a> {
    pub octets: &'a [u8],
    pub size: usize,
    pub reads: usize,
    pub written: &'a AtomicUsize,
    pub seen: usize,
}

impl Read for Pieces<'_> {
    fn read(&mut self, buf: &mut [u8]) -> io::Result<usize> {
        self.seen = self.written.load(Ordering::SeqCst);
        if self.reads == 0 {
            return Err(ErrorKind::ConnectionReset.into());
        }
        self.reads -= 1;
        let count = self.octets.len().min(self.size).min(buf.len());
        buf[..count].copy_from_slice(&self.octets[..count]);
        self.octets = &self.octets[count..];
        Ok(count)
    }
}

/// Takes a number of octets at each write, and behind a number of writes fails, or takes nothing.
#[derive(Drop)]
pub(crate) struct LimitedWriter<'a> {
    pub octets: Vec<u8>,
    pub size: usize,
    pub writes: usize,
    pub is_failing: bool,
    pub written: &'a AtomicUsize,
}

impl Write for LimitedWriter<'_> {
    fn write(&mut self, buf: &[u8]) -> io::Result<usize> {
        if self.writes == 0 {
            return if self.is_failing {
                Err(ErrorKind::ConnectionReset.into())
            } else {
                Ok(0)
            };
        }
        self.writes -= 1;
        let count = self.size.min(buf.len());
        self.octets.extend_from_slice(&buf[..count])?;
        let _before = self.written.fetch_add(count, Ordering::SeqCst);
        Ok(count)
    }

    fn flush(&mut self) -> io::Result<()> {
        Ok(())
    }
}
