//! What is known of a name.
ghost use Rattle.std.specs.Prelude.{◌≡◌, option_map, string_bytes, IfOk};
ghost use Rattle.std.specs.Str.{chars};
ghost use Rattle.janus_meaning.specs.Store.{look, find};
ghost use Rattle.kernel_ask.specs.Cursor.{word_at as word_at_of};
ghost use Rattle.kernel_ask.specs.Inspection.{value_told, procedure_told, both_told, inspection};
ghost use Rattle.kernel_text.specs.Defined.{in_a_row};

use crate::cursor::word_at;
use janus_syntax::tree::Procedure;
use kernel_text::{View, newest_of, procedure_text, value_text};
use std::alloc::{AllocError, Global};
use std::sync::ledger::Ledger;

/// The value text of a name, if it is declared.
fn value_of<L: Ledger>(
    alloc: Global,
    world: &View<'_, L>,
    name: &str,
) -> Result<Option<String>, AllocError>
    ensures { IfOk result (λ text. option_map string_bytes text ≡ value_told name.now (look name.now world.now.store)) }
{
    match world.value(name) {
        Some(value) => {
            let text = value_text(alloc, name, value)?;
            Ok(Some(text))
        }
        None => Ok(None),
    }
}

/// The text of the procedure of a name, if there is one.
fn print_of(
    alloc: Global,
    procedures: &[&Procedure],
    name: &str,
) -> Result<Option<String>, AllocError>
    ensures { IfOk result (λ text. option_map string_bytes text ≡ procedure_told (find name.now (in_a_row procedures.now))) }
{
    match newest_of(procedures, name) {
        Some(procedure) => {
            let text = procedure_text(alloc, procedure)?;
            Ok(Some(text))
        }
        None => Ok(None),
    }
}

/// The one text and then the other, parted by LF, or the one that there is.
fn both(first: Option<String>, second: Option<String>) -> Result<Option<String>, AllocError>
    ensures { IfOk result (λ text. option_map string_bytes text ≡ both_told (option_map string_bytes first) (option_map string_bytes second)) }
{
    match first {
        Some(mut text) => {
            if let Some(more) = second {
                text.push('\n')?;
                text.push_str(more.as_str())?;
            }
            Ok(Some(text))
        }
        None => Ok(second),
    }
}

/// What is known of the name that touches the cursor: its value text if it is declared, and the text of its procedure if it has one.
pub(crate) fn inspection_of<L: Ledger>(
    alloc: Global,
    world: &View<'_, L>,
    procedures: &[&Procedure],
    code: &str,
    cursor: Option<u64>,
) -> Result<Option<String>, AllocError>
    ensures { IfOk result (λ text. option_map string_bytes text
        ≡ inspection (record { store = world.now.store; procedures = in_a_row procedures.now }) (word_at_of cursor (chars code.now))) }
{
    let word = word_at(alloc, code, cursor)?;
    let value = value_of(alloc, world, word.as_str())?;
    let procedure = print_of(alloc, procedures, word.as_str())?;
    both(value, procedure)
}
