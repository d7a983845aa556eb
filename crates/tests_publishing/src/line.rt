//! A writer that is hung up on.
use kernel_iopub::HangUp;
use std::io;
use std::io::Write;

/// Takes all that is written, and notes that it was hung up on.
#[derive(Drop)]
pub(crate) struct Line {
    pub is_over: bool,
}

impl Write for Line {
    fn write(&mut self, buf: &[u8]) -> io::Result<usize> {
        Ok(buf.len())
    }

    fn flush(&mut self) -> io::Result<()> {
        Ok(())
    }
}

impl HangUp for Line {
    ghost is_over = { λ line. line.is_over };

    fn hang_up(&mut self) {
        self.is_over = true;
    }
}
