//! From a procedure to flat code.

ghost use Rattle.std.specs.Prelude.{◌≡◌, ◌≤◌, List, IfOk, length, map, Contains};
ghost use Rattle.janus_meaning.specs.Syntax.{Name};
ghost use Rattle.janus_syntax.specs.Tree.{parameters_view, procedure_view};
ghost use Rattle.janus_syntax.specs.View.{plain_parameter, plain_procedure, plain_cell};
ghost use Rattle.janus_check.specs.Slots.{stacked, procedure_in};
ghost use Rattle.janus_check.specs.Checked.{cell_in, heads_called};
ghost use Rattle.janus_code.specs.Held.{AreReached};
ghost use Rattle.janus_code.specs.Procedures.{params_of, proc_of, ParametersHaveNumbers, ProcedureHasNumbers};
ghost use Rattle.janus_code.specs.Slotted.{AreSlots, HasEntries, all_slots, slots_from};
ghost use Rattle.janus_code.specs.Width.{width_of_procedure};

use crate::code::{FlatParameter, FlatProcedure, SlottedProcedure};
use crate::expression::{entry, symbol_of};
use crate::fault::InvertFault;
use crate::flat::flat_code;
use janus_check::parameter::kind_of;
use janus_check::{Checked, SymbolTable};
use janus_slots::Names;
use janus_syntax::tree;
use std::alloc::{AllocError, Global};

/// The flat code of a procedure that a checked cell defines; each procedure that the cell may call has its name in the table. The body sees the parameters
/// alone, the first in the highest slot. The only error is want of memory, as which more names than a `usize` counts are refused too.
pub fn flatten_procedure<T: SymbolTable>(
    alloc: Global,
    checked: &Checked<T>,
    procedure: &tree::Procedure,
    entries: &Names,
) -> Result<SlottedProcedure, InvertFault>
    requires defined { Contains (plain_cell (cell_in checked.now)).procedures (plain_procedure (procedure_view procedure.now)) }
    requires entries { HasEntries (heads_called checked.now) entries.now }
    ensures procedure { IfOk result
        (λ slotted. (xs : List Name) → AreSlots xs → ProcedureHasNumbers xs slotted.procedure →
        proc_of xs slotted.procedure ≡ procedure_in entries.now (plain_procedure (procedure_view procedure.now))) }
    ensures wide { IfOk result (λ slotted. (xs : List Name) → slotted.width ≤ length xs → ProcedureHasNumbers xs slotted.procedure) }
    ensures width { IfOk result (λ slotted. slotted.width ≡ width_of_procedure entries.now (plain_procedure (procedure_view procedure.now))) }
    ensures reached { IfOk result (λ slotted.
        AreReached slotted.procedure.body.members.items slotted.procedure.body.statements.items slotted.procedure.body.body) }
{
    checked.formed_law();
    let sight = checked.sight();
    let name = entry(entries, &procedure.name);
    let parameters = flat_parameters(alloc, &procedure.parameters)?;
    let inside = sight.body(&procedure.parameters);
    let body = flat_code(alloc, &procedure.body, &inside, entries)?;
    Ok(SlottedProcedure {
        procedure: FlatProcedure {
            name,
            parameters,
            body: body.code,
        },
        width: body.width,
    })
}

/// The flat forms of parameters, each with its slot; an error for want of memory.
fn flat_parameters(
    alloc: Global,
    parameters: &[tree::Parameter],
) -> Result<Vec<FlatParameter>, AllocError>
    ensures parameters { IfOk result (λ flat. params_of all_slots flat.items ≡ stacked (map plain_parameter (parameters_view parameters.now))) }
    ensures numbered { IfOk result (λ flat. ParametersHaveNumbers (slots_from 0 (length parameters.now)) flat.items) }
{
    let mut flat = Vec::new(alloc);
    for i in 0..parameters.len() {
        flat.push(FlatParameter {
            name: symbol_of(parameters.len() - 1 - i),
            kind: kind_of(&parameters[i]),
        })?;
    }
    Ok(flat)
}
