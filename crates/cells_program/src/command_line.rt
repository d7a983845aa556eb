//! The program over the words of its command line.
ghost use Rattle.std.specs.Prelude.{◌≡◌, ◌≢◌, ◌⊎◌, ℕ, List, map, IfOk, IfErr, IfSome, IsErrAnd, OnErr, Err, MatchResult, ◌+◌};
ghost use Rattle.std.specs.Io.KnownBytes.{Appends, Keeps};
ghost use Rattle.clap.specs.Values.{kind_of};
ghost use Rattle.cells_program.specs.declared.choice.Choice.{Choice};
ghost use Rattle.cells_program.specs.CommandLine.{RunsFor};
ghost use Rattle.cells_program.specs.Ending.{AsksForHelp};
ghost use Rattle.exact_write.specs.Sent.{SentSome};
ghost use Rattle.cells_program.specs.RunFault.{IsServed, IsWhyUnread, TakesAtMost, input_limit};
ghost use Rattle.cells_program.specs.Transcript.{IsTranscriptFor};

use crate::fault::RunFault;
use crate::transcript::run_for;
use crate::words::choice_of;
use clap::Error;
use clap::error::ErrorKind;
use std::alloc::Global;
use std::convert::AsStr;
use std::io::{Read, Write};

/// Runs all of the input, as the words of the command line choose (see [`choice_of`](crate::words::choice_of)). What it answers, reads and
/// writes is that of [`run`](crate::transcript::run); where the words ask for explanations, a line more behind each refused text.
///
/// # Errors
/// What is wrong with the words, or that they ask for help or for the version. Nothing is read or written then.
pub fn program<'a, S: AsStr, R: Read, W: Write>(
    alloc: Global,
    words: &'a [S],
    reader: &mut R,
    writer: &mut W,
) -> Result<Result<(), RunFault>, Error>
    ensures written { IfOk result (λ ended. IfOk ended (λ _. IfSome (R.remaining reader.old) (λ input.
        (choice : Choice) × (out : List ℕ) × RunsFor (map S.text words.now) choice × IsTranscriptFor choice input out
        × Appends (W.contents writer.old) (W.contents writer.new) out))) }
    ensures cut { IfOk result (λ ended. IfErr ended (λ fault. fault ≡ RunFault.Write → IfSome (R.remaining reader.old) (λ input.
        (choice : Choice) × (out : List ℕ) × RunsFor (map S.text words.now) choice × IsTranscriptFor choice input out
        × SentSome (W.contents writer.old) (W.contents writer.new) out))) }
    ensures unwritten { IfOk result (λ ended. IfErr ended (λ fault. fault ≢ RunFault.Write → Keeps (W.contents writer.old) (W.contents writer.new))) }
    ensures served { IfOk result (λ ended. MatchResult ended (λ _. IfSome (R.remaining reader.old) IsServed)
        (λ fault. fault ≡ RunFault.Write → IfSome (R.remaining reader.old) IsServed)) }
    ensures unread { IfOk result (λ ended. IfErr ended (λ fault. fault ≢ RunFault.Write → IfSome (R.remaining reader.old) (IsWhyUnread fault))) }
    ensures taken { IfOk result (λ ended. TakesAtMost (input_limit + 1) (R.remaining reader.old) (R.remaining reader.new)) }
    ensures within { IfOk result (λ ended. MatchResult ended (λ _. TakesAtMost input_limit (R.remaining reader.old) (R.remaining reader.new))
        (λ fault. fault ≢ RunFault.TooLong → TakesAtMost input_limit (R.remaining reader.old) (R.remaining reader.new))) }
    ensures refused { OnErr result ((reader.new ≡ reader.old) × (writer.new ≡ writer.old)) }
    ensures err { IfErr result (λ error. (choice : Choice) → RunsFor (map S.text words.now) choice → kind_of error ≡ ErrorKind.OutOfMemory) }
    ensures help { AsksForHelp (map S.text words.now) → IsErrAnd result (λ error.
        (kind_of error ≡ ErrorKind.OutOfMemory) ⊎ (kind_of error ≡ ErrorKind.DisplayHelp)) }
{
    match choice_of(alloc, words) {
        Ok(choice) => Ok(run_for(alloc, choice, reader, writer)),
        Err(error) => Err(error),
    }
}

/// What the program answers where it has no memory for its output: what is wrong with the words comes first.
pub fn without_output<'a, S: AsStr>(
    alloc: Global,
    words: &'a [S],
) -> Result<Result<(), RunFault>, Error>
    ensures memory { IfOk result (λ ended. ended ≡ Err RunFault.Memory) }
    ensures err { IfErr result (λ error. (choice : Choice) → RunsFor (map S.text words.now) choice → kind_of error ≡ ErrorKind.OutOfMemory) }
    ensures help { AsksForHelp (map S.text words.now) → IsErrAnd result (λ error.
        (kind_of error ≡ ErrorKind.OutOfMemory) ⊎ (kind_of error ≡ ErrorKind.DisplayHelp)) }
{
    match choice_of(alloc, words) {
        Ok(_) => Ok(Err(RunFault::Memory)),
        Err(error) => Err(error),
    }
}
