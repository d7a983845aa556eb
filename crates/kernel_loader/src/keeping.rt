//! The bodies of a cell's procedures, made flat and linked, and kept behind those of earlier cells.
ghost use Rattle.std.specs.Prelude.{◌≡◌, ◌+◌, ◌≤◌, ◌<◌, ◌++◌, ℕ, OnOk, IfOk, length, map, Contains};
ghost use Rattle.janus_slots.specs.Slots.{slot, procedure_in, procedures_in};
ghost use Rattle.janus_syntax.specs.Tree.{procedure_view, procedures_view};
ghost use Rattle.janus_syntax.specs.View.{plain_procedure, plain_cell};
ghost use Rattle.janus_check.specs.Checked.{cell_in, heads_called};
ghost use Rattle.janus_code.specs.Slotted.{HasEntries, all_slots};
ghost use Rattle.kernel_runner.specs.Bodies.{IsBody, AreBodiesFrom};
ghost use Rattle.kernel_runner.specs.LinkedProcedure.{name_number_of};
ghost use Rattle.kernel_runner.specs.Procedures.{kept_in, places_in};
ghost use Rattle.kernel_loader.specs.Keeping.{KeepsOlder, KeepsDefined, HaveNumbersBelow};

use janus_check::{Checked, SymbolTable};
use janus_code::flatten_procedure;
use janus_slots::Names;
use janus_syntax::tree::Procedure;
use kernel_runner::{LinkedProcedure, Procedures};
use std::alloc::{AllocError, Global};

/// The bodies of procedures of a checked cell, in order. The only error is want of memory, as which a body of more statements or places than 32 bits count
/// is refused too.
pub fn bodies_of<T: SymbolTable>(
    alloc: Global,
    checked: &Checked<T>,
    procedures: &[Procedure],
    entries: &Names,
) -> Result<Vec<LinkedProcedure>, AllocError>
    requires defined { map plain_procedure (procedures_view procedures.now) ≡ (plain_cell (cell_in checked.now)).procedures }
    requires entries { HasEntries (heads_called checked.now) entries.now }
    ensures bodies { IfOk result (λ bodies. AreBodiesFrom bodies.items 0 (procedures_in entries.now (map plain_procedure (procedures_view procedures.now)))) }
    ensures count { IfOk result (λ bodies. length bodies.items ≡ length procedures.now) }
    ensures few { IfOk result (λ bodies. HaveNumbersBelow (length entries.now) bodies.items) }
{
    let mut bodies = Vec::new(alloc);
    for i in 0..procedures.len() {
        let body = body_of(alloc, checked, &procedures[i], entries)?;
        bodies.push(body)?;
    }
    Ok(bodies)
}

/// The body of a procedure of a checked cell. The only error is want of memory, as which one of more statements or places than 32 bits count is refused too.
fn body_of<T: SymbolTable>(
    alloc: Global,
    checked: &Checked<T>,
    procedure: &Procedure,
    entries: &Names,
) -> Result<LinkedProcedure, AllocError>
    requires of_cell { Contains (plain_cell (cell_in checked.now)).procedures (plain_procedure (procedure_view procedure.now)) }
    requires entries { HasEntries (heads_called checked.now) entries.now }
    ensures name { IfOk result (λ body. (procedure_in entries.now (plain_procedure (procedure_view procedure.now))).name ≡ slot (name_number_of body)) }
    ensures is { IfOk result (λ body. IsBody body (procedure_in entries.now (plain_procedure (procedure_view procedure.now)))) }
    ensures few { IfOk result (λ body. name_number_of body < length entries.now) }
{
    let Ok(flat) = flatten_procedure(alloc, checked, procedure, entries) else {
        return Err(AllocError);
    };
    slots_law(flat.width);
    let body = LinkedProcedure::new(alloc, flat.procedure)?;
    Ok(body)
}

/// Keeps bodies behind the others, in order; an error for want of memory, after which some of them may be kept.
pub fn keep_all(bodies: Vec<LinkedProcedure>, kept: &mut Procedures) -> Result<(), AllocError>
    ensures kept { OnOk result (kept_in kept.new ≡ kept_in kept.old ++ bodies.items) }
    ensures older { KeepsOlder kept.old kept.new }
    ensures defined { KeepsDefined kept.old kept.new }
    ensures few { (n : ℕ) → places_in kept.old ≤ n → HaveNumbersBelow n bodies.items → places_in kept.new ≤ n }
{
    let mut rest = bodies;
    rest.reverse();
    while let Some(body) = rest.pop() {
        let _index = kept.add(body)?;
    }
    Ok(())
}

/// Law: a `usize` counts no more than there are slots.
pub fn slots_law(width: usize)
    ensures { width ≤ length all_slots }
{}
