//! A text's cell, and its check over what is known before it.
ghost use Rattle.std.specs.Prelude.{◌≡◌, ℕ, List, IfOk, IfErr};
ghost use Rattle.janus_meaning.specs.World.{World};
ghost use Rattle.janus_syntax.specs.Text.{HasTree};
ghost use Rattle.janus_syntax.specs.Tree.{cell_view};
ghost use Rattle.janus_syntax.specs.View.{plain_cell};
ghost use Rattle.janus_check.specs.Checked.{cell_in, known_in};
ghost use Rattle.kernel_machine.specs.Text.{Accepts, Refuses};
ghost use Rattle.kernel_loader.specs.Known.{IsKnownOf};

use janus_check::{Checked, SymbolTable, check};
use janus_syntax::parse_cell;
use janus_syntax::tree::Cell;
use kernel_machine::Refusal;
use std::alloc::Global;

/// The cell of a text; or why it has none.
pub fn cell_of_text(alloc: Global, text: &str) -> Result<Cell, Refusal>
    ensures tree { IfOk result (λ cell. HasTree text.now (cell_view cell)) }
    ensures refuses { IfErr result (λ refusal. (w : World) → Refuses w text.now refusal) }
{
    match parse_cell(alloc, text) {
        Ok(cell) => Ok(cell),
        Err(fault) => Err(Refusal::of_syntax(fault)),
    }
}

/// A cell, checked over what is known of a world; or why its text is refused there.
pub fn checked<'a, T: SymbolTable>(
    alloc: Global,
    table: &'a T,
    cell: Cell,
) -> Result<Checked<'a, T>, Refusal>
    ensures accepts { IfOk result (λ checked. (w : World) (text : List ℕ) → IsKnownOf (T.known table.now) w → HasTree text (cell_view cell) →
        Accepts w text (plain_cell (cell_in checked))) }
    ensures same { IfOk result (λ checked. cell_in checked ≡ cell_view cell) }
    ensures known { IfOk result (λ checked. known_in checked ≡ T.known table.now) }
    ensures refuses { IfErr result (λ refusal. (w : World) (text : List ℕ) → IsKnownOf (T.known table.now) w → HasTree text (cell_view cell) →
        Refuses w text refusal) }
{
    match check(alloc, table, cell) {
        Ok(checked) => Ok(checked),
        Err(fault) => Err(Refusal::of_check(fault)),
    }
}
