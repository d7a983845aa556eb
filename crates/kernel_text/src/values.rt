//! Value texts: a name and its value, as `x = 5`, `a[3] = 1 2 3` and `s(2) = 7 3`.
ghost use Rattle.std.specs.Prelude.{◌≡◌, ◌++◌, codes, length, take, string_bytes, IfOk, OnOk, OnErr};
ghost use Rattle.std.specs.Fmt.{signed_decimal};
ghost use Rattle.std.specs.Io.KnownBytes.{Appends};
ghost use Rattle.janus_meaning.specs.Store.{Stk};
ghost use Rattle.janus_memory.specs.Stacks.{held};
ghost use Rattle.janus_memory.specs.Values.{shown};
ghost use Rattle.exact_write.specs.Sent.{SentSome};
ghost use Rattle.kernel_text.specs.ValueTexts.{equated_text, length_text, height_text, spaced_text, numbers_text, told_text, value_text as value_text_of};

use crate::text::as_text;
use crate::writing::send_counted;
use exact_write::{WriteFailed, send};
use itoa::Buffer;
use janus_memory::{StackView, ValueView};
use std::alloc::{AllocError, Global};
use std::io::Write;

/// How many values of an array or a stack are shown; ` ...` stands for those behind them.
pub const SHOWN_VALUES: usize = 32;

/// Writes a number in decimal digits, behind a `-` where it is below 0.
fn send_signed<W: Write>(writer: &mut W, n: i32) -> Result<(), WriteFailed>
    ensures ok { OnOk result (Appends (W.contents writer.old) (W.contents writer.new) (signed_decimal n)) }
    ensures err { OnErr result (SentSome (W.contents writer.old) (W.contents writer.new) (signed_decimal n)) }
{
    let mut text = Buffer::new();
    send(writer, text.format(n).as_bytes())
}

/// Writes an equals sign between spaces, and then a number.
fn send_equated<W: Write>(writer: &mut W, value: i32) -> Result<(), WriteFailed>
    ensures ok { OnOk result (Appends (W.contents writer.old) (W.contents writer.new) (equated_text value)) }
    ensures err { OnErr result (SentSome (W.contents writer.old) (W.contents writer.new) (equated_text value)) }
{
    send(writer, b" = ")?;
    send_signed(writer, value)
}

/// Writes a space, and then a number.
fn send_spaced<W: Write>(writer: &mut W, value: i32) -> Result<(), WriteFailed>
    ensures ok { OnOk result (Appends (W.contents writer.old) (W.contents writer.new) (codes " " ++ signed_decimal value)) }
    ensures err { OnErr result (SentSome (W.contents writer.old) (W.contents writer.new) (codes " " ++ signed_decimal value)) }
{
    send(writer, b" ")?;
    send_signed(writer, value)
}

/// Writes numbers, a space before each.
fn send_all<W: Write>(writer: &mut W, numbers: &[i32]) -> Result<(), WriteFailed>
    ensures ok { OnOk result (Appends (W.contents writer.old) (W.contents writer.new) (spaced_text numbers.now)) }
    ensures err { OnErr result (SentSome (W.contents writer.old) (W.contents writer.new) (spaced_text numbers.now)) }
{
    for i in 0..numbers.len() {
        send_spaced(writer, numbers[i])?;
    }
    Ok(())
}

/// Writes the first numbers, a space before each, and whether there are more.
fn send_numbers<W: Write>(writer: &mut W, numbers: &[i32]) -> Result<(), WriteFailed>
    ensures ok { OnOk result (Appends (W.contents writer.old) (W.contents writer.new) (numbers_text numbers.now)) }
    ensures err { OnErr result (SentSome (W.contents writer.old) (W.contents writer.new) (numbers_text numbers.now)) }
{
    if numbers.len() <= SHOWN_VALUES {
        return send_all(writer, numbers);
    }
    let first = &numbers[..SHOWN_VALUES];
    send_all(writer, first)?;
    send(writer, b" ...")
}

/// Writes how long an array is, and an equals sign.
fn send_length<W: Write>(writer: &mut W, length: usize) -> Result<(), WriteFailed>
    ensures ok { OnOk result (Appends (W.contents writer.old) (W.contents writer.new) (length_text length)) }
    ensures err { OnErr result (SentSome (W.contents writer.old) (W.contents writer.new) (length_text length)) }
{
    send_counted(writer, "[", length as u64)?;
    send(writer, b"] =")
}

/// Writes how long an array is, and its numbers.
fn send_array<W: Write>(writer: &mut W, numbers: &[i32]) -> Result<(), WriteFailed>
    ensures ok { OnOk result (Appends (W.contents writer.old) (W.contents writer.new) (length_text (length numbers.now) ++ numbers_text numbers.now)) }
    ensures err { OnErr result (SentSome (W.contents writer.old) (W.contents writer.new) (length_text (length numbers.now) ++ numbers_text numbers.now)) }
{
    send_length(writer, numbers.len())?;
    send_numbers(writer, numbers)
}

/// Writes the newest values of a stack, as many as the count says, the top first, and a space before each.
fn send_tops<W: Write>(
    writer: &mut W,
    values: &StackView<'_>,
    count: usize,
) -> Result<(), WriteFailed>
    ensures ok { OnOk result (Appends (W.contents writer.old) (W.contents writer.new) (spaced_text (take count (held values.now)))) }
    ensures err { OnErr result (SentSome (W.contents writer.old) (W.contents writer.new) (spaced_text (take count (held values.now)))) }
{
    for value in (*values).take(count) {
        send_spaced(writer, value)?;
    }
    Ok(())
}

/// Writes the newest values of a stack, the top first, and whether there are more.
fn send_values<W: Write>(writer: &mut W, values: &StackView<'_>) -> Result<(), WriteFailed>
    ensures ok { OnOk result (Appends (W.contents writer.old) (W.contents writer.new) (numbers_text (held values.now))) }
    ensures err { OnErr result (SentSome (W.contents writer.old) (W.contents writer.new) (numbers_text (held values.now))) }
{
    if values.len() <= SHOWN_VALUES {
        return send_tops(writer, values, values.len());
    }
    send_tops(writer, values, SHOWN_VALUES)?;
    send(writer, b" ...")
}

/// Writes how high a stack is, and an equals sign.
fn send_height<W: Write>(writer: &mut W, height: usize) -> Result<(), WriteFailed>
    ensures ok { OnOk result (Appends (W.contents writer.old) (W.contents writer.new) (height_text height)) }
    ensures err { OnErr result (SentSome (W.contents writer.old) (W.contents writer.new) (height_text height)) }
{
    send_counted(writer, "(", height as u64)?;
    send(writer, b") =")
}

/// Writes how high a stack is, and its values, the top first.
fn send_stack<W: Write>(writer: &mut W, values: &StackView<'_>) -> Result<(), WriteFailed>
    ensures ok { OnOk result (Appends (W.contents writer.old) (W.contents writer.new) (told_text (Stk (held values.now)))) }
    ensures err { OnErr result (SentSome (W.contents writer.old) (W.contents writer.new) (told_text (Stk (held values.now)))) }
{
    send_height(writer, values.len())?;
    send_values(writer, values)
}

/// Writes what stands behind a name: its value.
fn send_told<W: Write>(writer: &mut W, value: ValueView<'_>) -> Result<(), WriteFailed>
    ensures ok { OnOk result (Appends (W.contents writer.old) (W.contents writer.new) (told_text (shown value.entry))) }
    ensures err { OnErr result (SentSome (W.contents writer.old) (W.contents writer.new) (told_text (shown value.entry))) }
{
    match value {
        ValueView::Number(number) => send_equated(writer, number),
        ValueView::Array(numbers) => send_array(writer, numbers),
        ValueView::Stack(values) => send_stack(writer, &values),
    }
}

/// Writes the value text of a name and its value: `x = 5`, or `a[3] = 1 2 3` with the first [`SHOWN_VALUES`] elements, or
/// `s(2) = 7 3` with the newest [`SHOWN_VALUES`] values, the top first.
///
/// # Errors
/// The writer failed, and a beginning of the text went out.
pub fn send_value<W: Write>(
    writer: &mut W,
    name: &str,
    value: ValueView<'_>,
) -> Result<(), WriteFailed>
    ensures ok { OnOk result (Appends (W.contents writer.old) (W.contents writer.new) (value_text_of (name.now, shown value.entry))) }
    ensures err { OnErr result (SentSome (W.contents writer.old) (W.contents writer.new) (value_text_of (name.now, shown value.entry))) }
{
    send(writer, name.as_bytes())?;
    send_told(writer, value)
}

/// The value text of a name and its value, as [`send_value`] writes it. The only error is want of memory.
pub fn value_text(alloc: Global, name: &str, value: ValueView<'_>) -> Result<String, AllocError>
    ensures { IfOk result (λ text. string_bytes text ≡ value_text_of (name.now, shown value.entry)) }
{
    let mut octets = Vec::new(alloc);
    match send_value(&mut octets, name, value) {
        Ok(()) => Ok(as_text(octets)),
        Err(_) => Err(AllocError),
    }
}
