//! Why the program does not run.
ghost use Rattle.std.specs.Prelude.{◌≡◌};
ghost use Rattle.kernel_program.specs.Status.{status_of};

use jupyter_msg::Setting;
use std::alloc::AllocError;
use std::io::Write;

/// Why the program does not run, or did not begin to serve.
#[derive(Clone, Copy)]
pub enum ProgramFault {
    /// There was no memory at the start, or no thread could be made.
    Memory,
    /// This field of the connection file is wrong.
    File(Setting),
    /// The socket of this field could not be bound.
    Bind(Setting),
}

impl ProgramFault {
    /// The status with which the program ends.
    pub fn status(self) -> u8
        ensures { result ≡ status_of self }
    {
        match self {
            ProgramFault::Memory => 1,
            ProgramFault::File(_) => 2,
            ProgramFault::Bind(_) => 3,
        }
    }

    /// Writes the line that tells it. A fault of the stream is passed over.
    pub(crate) fn tell<E: Write>(self, err: &mut E) {
        let _ = match self {
            ProgramFault::Memory => writeln!(err, "janus-kernel: no memory"),
            ProgramFault::File(setting) => {
                writeln!(err, "janus-kernel: connection file: {}", setting.name())
            }
            ProgramFault::Bind(setting) => {
                writeln!(err, "janus-kernel: cannot bind {}", setting.name())
            }
        };
        let _ = err.flush();
    }
}

impl From<AllocError> for ProgramFault {
    ghost use Rattle.std.specs.Prelude.{◌≡◌};
    ghost use Rattle.kernel_program.specs.declared.fault.ProgramFault.TheVariants.{Memory};

    ghost from_gives = { λ _ e. e ≡ Memory };

    fn from(_: AllocError) -> Self {
        ProgramFault::Memory
    }
}
