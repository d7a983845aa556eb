//! The minutes of a hall that was closed.
ghost use Rattle.std.specs.Prelude.{◌≡◌, map};
ghost use Rattle.kernel_audit.specs.LegalMinutes.{HasLegalMinutes};
ghost use Rattle.kernel_audit.specs.Written.{entry_of};

use kernel_audit::{Entry, Kernel};
use std::marker::Model;
use std::sync::ledger::Ledger;

/// The minutes, in the kernel that wrote them. Contracts see the machine that it is.
#[derive(Drop)]
pub struct Minutes<W: Ledger> {
    pub(crate) kernel: Kernel<W>,
}

impl<W: Ledger> Model for Minutes<W> {
    ghost use Rattle.kernel_audit.specs.Runs.{Machine};
    ghost use Rattle.kernel_audit.specs.MachineCode.{machine_code};

    ghost Value = { Machine };

    ghost coded = { machine_code };

    ghost view = { λ m. m.kernel.machine };
}

impl<W: Ledger> Minutes<W> {
    /// The entries, from first to last; and they are legal.
    pub fn entries(&self) -> &[Entry]
        ensures entries { map entry_of result.now ≡ self.now.minutes }
        ensures legal { HasLegalMinutes self.now }
    {
        self.kernel.minutes()
    }

    /// Discards the minutes, with their kernel: as `Hall::discard` does a hall.
    pub fn discard(self) {
        let Minutes { kernel } = self;
        kernel.discard();
    }
}
