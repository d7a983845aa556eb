//! The program over any reader and writer, with the ledger in which its kernel counts the writes of the store.
ghost use Rattle.std.specs.Prelude.{◌≡◌, ◌≢◌, ◌+◌, ◌<◌, ℕ, List, IfErr, IfSome, MatchResult, OnOk};
ghost use Rattle.std.specs.Io.KnownBytes.{Appends, Keeps};
ghost use Rattle.exact_write.specs.Sent.{SentSome};
ghost use Rattle.cells_program.specs.RunFault.{IsServed, IsWhyUnread, TakesAtMost, input_limit};
ghost use Rattle.cells_program.specs.Transcript.{IsTranscriptFor};

use crate::choice::Choice;
use crate::fault::RunFault;
use crate::input::read_text;
use crate::transcript::run_text;
use kernel_core::Kernel;
use std::alloc::Global;
use std::io::{Read, Write};
use std::sync::ledger::{Blank, Ledger};

/// Does what [`run_for`](crate::transcript::run_for) says. The blank opens the ledger of the kernel.
pub(crate) fn run_counted<L: Ledger, R: Read, W: Write>(
    alloc: Global,
    blank: Blank,
    choice: Choice,
    reader: &mut R,
    writer: &mut W,
) -> Result<(), RunFault>
    requires name { blank.name ≡ L.name }
    requires parts { blank.parts ≡ L.parts }
    requires two { 1 < L.parts }
    ensures written { OnOk result (IfSome (R.remaining reader.old) (λ input.
        (out : List ℕ) × IsTranscriptFor choice input out × Appends (W.contents writer.old) (W.contents writer.new) out)) }
    ensures served { MatchResult result (λ _. IfSome (R.remaining reader.old) IsServed)
        (λ fault. fault ≡ RunFault.Write → IfSome (R.remaining reader.old) IsServed) }
    ensures cut { IfErr result (λ fault. fault ≡ RunFault.Write → IfSome (R.remaining reader.old) (λ input.
        (out : List ℕ) × IsTranscriptFor choice input out × SentSome (W.contents writer.old) (W.contents writer.new) out)) }
    ensures unread { IfErr result (λ fault. fault ≢ RunFault.Write → IfSome (R.remaining reader.old) (IsWhyUnread fault)) }
    ensures unwritten { IfErr result (λ fault. fault ≢ RunFault.Write → Keeps (W.contents writer.old) (W.contents writer.new)) }
    ensures taken { TakesAtMost (input_limit + 1) (R.remaining reader.old) (R.remaining reader.new) }
    ensures within { MatchResult result (λ _. TakesAtMost input_limit (R.remaining reader.old) (R.remaining reader.new))
        (λ fault. fault ≢ RunFault.TooLong → TakesAtMost input_limit (R.remaining reader.old) (R.remaining reader.new)) }
{
    let Ok(mut kernel) = Kernel::<L>::new(alloc, blank) else {
        return Err(RunFault::Memory);
    };
    let text = match read_text(alloc, reader) {
        Ok(text) => text,
        Err(fault) => {
            kernel.discard();
            return Err(fault);
        }
    };
    let served = run_text(alloc, choice, &mut kernel, &text, writer);
    kernel.discard();
    match served {
        Ok(()) => Ok(()),
        Err(_) => Err(RunFault::Write),
    }
}
