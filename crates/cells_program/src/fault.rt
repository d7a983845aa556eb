//! Why a run ends before its input is served.
ghost use Rattle.std.specs.Prelude.{◌≡◌};
ghost use Rattle.cells_program.specs.Ending.{fault_line, run_status};

use thiserror::Error;

/// Why a run ends before its input is served.
#[derive(Clone, Copy, Debug, Error)]
pub enum RunFault {
    /// The reader failed.
    #[error("cannot read")]
    Read,
    /// The input has more octets than are taken.
    #[error("input too long")]
    TooLong,
    /// The input is not UTF-8.
    #[error("input is not text")]
    NotText,
    /// There was no memory for the start or for the input.
    #[error("no memory")]
    Memory,
    /// The writer failed, or took nothing of what it was given.
    #[error("cannot write")]
    Write,
}

impl RunFault {
    /// The line that tells the fault on standard error.
    pub fn line(self) -> &'static str
        ensures { result.now ≡ fault_line self }
    {
        match self {
            RunFault::Read => "janus-cells: cannot read\n",
            RunFault::TooLong => "janus-cells: input too long\n",
            RunFault::NotText => "janus-cells: input is not text\n",
            RunFault::Memory => "janus-cells: no memory\n",
            RunFault::Write => "janus-cells: cannot write\n",
        }
    }
}

/// The exit status of a run: 0 where its input was served, 1 where a fault ended it.
pub fn status(ended: Result<(), RunFault>) -> u8
    ensures { result ≡ run_status ended }
{
    match ended {
        Ok(()) => 0,
        Err(_) => 1,
    }
}
