//! What is shown of a cell that ran.
ghost use Rattle.std.specs.Prelude.{◌≡◌, [], ◌∷◌, ◌++◌, map, string_bytes, option_map, IfOk, OnOk};
ghost use Rattle.std.specs.List.{filter, join_with_byte};
ghost use Rattle.janus_meaning.specs.World.{listed};
ghost use Rattle.kernel_text.specs.Values.{shown};
ghost use Rattle.janus_syntax.specs.Tree.{cell_view};
ghost use Rattle.kernel_text.specs.Naming.{in_cell};
ghost use Rattle.kernel_text.specs.ValueTexts.{value_text as value_text_of};
ghost use Rattle.kernel_ask.specs.Shown.{shown_text};

use janus_syntax::tree::Cell;
use kernel_text::{ValueView, View, cell_names, value_text};
use std::alloc::{AllocError, Global};
use std::sync::ledger::Ledger;

/// Adds the value text of a name, if the cell names it.
fn push_named(
    alloc: Global,
    texts: &mut Vec<String>,
    name: &str,
    value: ValueView<'_>,
    cell: &Cell,
) -> Result<(), AllocError>
    ensures { OnOk result (map string_bytes texts.new.items
        ≡ map string_bytes texts.old.items
        ++ map value_text_of (filter (λ e. in_cell e.0 (cell_view cell.now)) ((name.now, shown value.entry) ∷ []))) }
{
    if cell_names(name, cell) {
        texts.push(value_text(alloc, name, value)?)?;
    }
    Ok(())
}

/// The value texts of the declared names that the cell names, in the order of declaration.
fn named_texts<L: Ledger>(
    alloc: Global,
    world: &View<'_, L>,
    cell: &Cell,
) -> Result<Vec<String>, AllocError>
    ensures { IfOk result (λ v. map string_bytes v.items
        ≡ map value_text_of (filter (λ e. in_cell e.0 (cell_view cell.now)) (listed world.now.store))) }
{
    let mut texts = Vec::new(alloc);
    for i in 0..world.len() {
        let (name, value) = world.entry(i);
        push_named(alloc, &mut texts, name, value, cell)?;
    }
    Ok(texts)
}

/// The texts, parted by LF.
fn parted(alloc: Global, first: &str, rest: &[String]) -> Result<String, AllocError>
    ensures { IfOk result (λ text. string_bytes text ≡ join_with_byte 10 (first.now ∷ map string_bytes rest.now)) }
{
    let mut text = String::from_str(alloc, first)?;
    for next in rest {
        text.push_str("\n")?;
        text.push_str(next.as_str())?;
    }
    Ok(text)
}

/// The value texts of the declared names that the cell names, parted by LF, if it names one.
pub(crate) fn shown_of<L: Ledger>(
    alloc: Global,
    world: &View<'_, L>,
    cell: &Cell,
) -> Result<Option<String>, AllocError>
    ensures { IfOk result (λ text. option_map string_bytes text ≡ shown_text world.now.store (cell_view cell.now)) }
{
    let texts = named_texts(alloc, world, cell)?;
    match texts.as_slice() {
        [] => Ok(None),
        [first, rest @ ..] => {
            let text = parted(alloc, first.as_str(), rest)?;
            Ok(Some(text))
        }
    }
}
