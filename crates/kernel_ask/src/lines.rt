//! The line that says why an expression has no value.
ghost use Rattle.std.specs.Prelude.{◌≡◌, string_bytes, IfOk};
ghost use Rattle.kernel_ask.specs.Lines.{exp_fault_line as exp_fault_line_of};

use crate::done::ExpFault;
use kernel_text::{fault_line, refusal_line};
use std::alloc::{AllocError, Global};

/// The line that says why an expression has no value, as `fault 57 DivisionByZero`. The only error is want of memory.
pub fn exp_fault_line(alloc: Global, fault: ExpFault) -> Result<String, AllocError>
    ensures { IfOk result (λ line. string_bytes line ≡ exp_fault_line_of fault) }
{
    match fault {
        ExpFault::Refused(refusal) => refusal_line(alloc, refusal),
        ExpFault::Met(fault) => fault_line(alloc, fault),
    }
}
