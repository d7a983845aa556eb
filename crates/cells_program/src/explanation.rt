//! What is written behind a refused text: where it is refused, and why in words.
ghost use Rattle.std.specs.Prelude.{◌≡◌, ◌++◌, codes, OnOk, OnErr};
ghost use Rattle.std.specs.Io.KnownBytes.{Appends};
ghost use Rattle.exact_write.specs.Sent.{SentSome};
ghost use Rattle.cells_program.specs.Explained.{check_words as check_words_of, explained, place_text, refusal_words as refusal_words_of};
ghost use Rattle.cells_program.specs.Explained.{syntax_words as syntax_words_of, wanted_of, why_text};
ghost use Rattle.cells_program.specs.Place.{place_at as place_at_of};

use crate::place::{Place, place_at};
use kernel_core::{CheckFault, Refusal, SyntaxFault};
use kernel_text::{WriteFailed, send, send_counted};
use std::io::Write;

/// What is wrong with a text.
fn syntax_words(fault: SyntaxFault) -> &'static str
    ensures { result.now ≡ syntax_words_of fault }
{
    match fault {
        SyntaxFault::BadToken(_) => ": no token begins with this character",
        SyntaxFault::Expected(_, _) => ": what has to stand here: ",
        SyntaxFault::NumberTooLarge(_) => ": a number past 2147483647",
        SyntaxFault::TooNested(_) => {
            ": nested deeper than 64, or more than 256 operators in one expression"
        }
        SyntaxFault::DelocalName(_) => ": another kind or name than the one after its local",
        SyntaxFault::Memory => ": no memory",
    }
}

/// What is wrong with a cell.
fn check_words(fault: CheckFault) -> &'static str
    ensures { result.now ≡ check_words_of fault }
{
    match fault {
        CheckFault::Declared(_) => ": this name is declared already",
        CheckFault::Unknown(_) => ": this name is not in sight, or is no procedure",
        CheckFault::WrongKind(_) => ": a name of this kind can't stand here",
        CheckFault::SelfUse(_) => ": this name can't stand in its own expression or index",
        CheckFault::SameArgument(_) => ": this name is an argument already",
        CheckFault::Arity(_) => ": this procedure has another number of parameters",
        CheckFault::Shadow(_) => ": this name is in sight already",
        CheckFault::ChangedParameters(_) => {
            ": this procedure is defined with parameters of other kinds"
        }
        CheckFault::TooMany(_) => ": one name more than the limit",
        CheckFault::ArrayLength(_) => ": an array has 1 to 65536 elements",
        CheckFault::Memory => ": no memory",
    }
}

/// Why a text is refused; nothing where it isn't the text that is.
fn refusal_words(refusal: Refusal) -> &'static str
    ensures { result.now ≡ refusal_words_of refusal }
{
    match refusal {
        Refusal::Syntax(fault) => syntax_words(fault),
        Refusal::Check(fault) => check_words(fault),
        Refusal::HistoryFull => "",
        Refusal::TooFar => "",
        Refusal::NoNode => "",
        Refusal::Closing => "",
        Refusal::Memory => "",
    }
}

/// What would have to stand there, where the grammar names one thing.
fn wanted(refusal: Refusal) -> &'static str
    ensures { result.now ≡ wanted_of refusal }
{
    match refusal {
        Refusal::Syntax(SyntaxFault::Expected(what, _)) => what.text(),
        _ => "",
    }
}

/// Writes words, and ends the line.
fn send_ended<W: Write>(writer: &mut W, words: &str) -> Result<(), WriteFailed>
    ensures ok { OnOk result (Appends (W.contents writer.old) (W.contents writer.new) (words.now ++ codes "\n")) }
    ensures err { OnErr result (SentSome (W.contents writer.old) (W.contents writer.new) (words.now ++ codes "\n")) }
{
    send(writer, words.as_bytes())?;
    send(writer, b"\n")
}

/// Writes why a text is refused, and ends the line.
fn send_why<W: Write>(writer: &mut W, refusal: Refusal) -> Result<(), WriteFailed>
    ensures ok { OnOk result (Appends (W.contents writer.old) (W.contents writer.new) (why_text refusal)) }
    ensures err { OnErr result (SentSome (W.contents writer.old) (W.contents writer.new) (why_text refusal)) }
{
    send(writer, refusal_words(refusal).as_bytes())?;
    send_ended(writer, wanted(refusal))
}

/// Writes a place, in front of what is told of it.
fn send_place<W: Write>(writer: &mut W, place: Place) -> Result<(), WriteFailed>
    ensures ok { OnOk result (Appends (W.contents writer.old) (W.contents writer.new) (place_text place)) }
    ensures err { OnErr result (SentSome (W.contents writer.old) (W.contents writer.new) (place_text place)) }
{
    send_counted(writer, "  line ", place.line as u64)?;
    send_counted(writer, " column ", place.column as u64)
}

/// Writes the line that explains a refusal at a place of the text.
fn send_at<W: Write>(
    writer: &mut W,
    text: &str,
    refusal: Refusal,
    at: usize,
) -> Result<(), WriteFailed>
    ensures ok { OnOk result (Appends (W.contents writer.old) (W.contents writer.new) (place_text (place_at_of text.now at) ++ why_text refusal)) }
    ensures err { OnErr result (SentSome (W.contents writer.old) (W.contents writer.new) (place_text (place_at_of text.now at) ++ why_text refusal)) }
{
    send_place(writer, place_at(text, at))?;
    send_why(writer, refusal)
}

/// Writes the line that explains why a text is refused; nothing where it isn't the text that is.
///
/// # Errors
/// The writer failed, and a beginning of the line went out.
pub(crate) fn send_explained<W: Write>(
    writer: &mut W,
    text: &str,
    refusal: Refusal,
) -> Result<(), WriteFailed>
    ensures ok { OnOk result (Appends (W.contents writer.old) (W.contents writer.new) (explained text.now refusal)) }
    ensures err { OnErr result (SentSome (W.contents writer.old) (W.contents writer.new) (explained text.now refusal)) }
{
    match refusal.span() {
        Some(span) => send_at(writer, text, refusal, span.start),
        None => Ok(()),
    }
}
