//! The procedures that can be called, by name.
ghost use Rattle.std.specs.Prelude.{◌≡◌, [], map, string_bytes, IfOk};
ghost use Rattle.std.specs.List.Sorted.{IsStrictlySortedBy};
ghost use Rattle.std.specs.String.{string_cmp};
ghost use Rattle.kernel_core.specs.Defined.{in_a_row};
ghost use Rattle.kernel_core.specs.State.{Idle, here};
ghost use Rattle.cells_program.specs.ByName.{found, with_names};
ghost use Rattle.kernel_text.specs.Procedures.{procedure_names};
ghost use Rattle.cells_program.specs.Listing.{IsListText, IsListing, listing_text};

use janus_syntax::tree::Procedure;
use kernel_core::Kernel;
use kernel_text::{newest_of, procedure_text};
use std::alloc::{AllocError, Global};
use std::collections::BTreeSet;
use std::sync::ledger::Ledger;

/// The procedures of a kernel without an open job that can be called, one a line, by name. The only error is want of memory.
pub(crate) fn list_text<L: Ledger>(alloc: Global, kernel: &Kernel<L>) -> Result<String, AllocError>
    requires idle { kernel.now.machine.state.job ≡ Idle }
    ensures { IfOk result (λ text. IsListText (here kernel.now.machine.state.past) (string_bytes text)) }
{
    let world = kernel.world();
    let procedures = world.procedures(alloc)?;
    let all = listed(alloc, procedures.as_slice())?;
    lines_of(alloc, all.as_slice())
}

/// Of procedures that stand newest first, those that a name calls, in the order of the names' octets. A newer one hides those of its
/// name behind it, so each name is there once. The only error is want of memory.
fn listed<'a>(alloc: Global, procedures: &[&'a Procedure]) -> Result<Vec<&'a Procedure>, AllocError>
    ensures { IfOk result (λ all. IsListing (in_a_row procedures.now) (in_a_row all.items)) }
{
    let names = in_order(alloc, names_of(alloc, procedures)?)?;
    newest_of_each(alloc, procedures, names.as_slice())
}

/// The names of procedures, each once.
fn names_of(alloc: Global, procedures: &[&Procedure]) -> Result<BTreeSet<String>, AllocError>
    ensures { IfOk result (λ names. map string_bytes names.keys ≡ with_names [] (procedure_names (in_a_row procedures.now))) }
{
    let mut names = BTreeSet::new(alloc);
    for i in 0..procedures.len() {
        let procedure = procedures[i];
        let name = String::from_str(alloc, procedure.name.text.as_str())?;
        names.insert(name)?;
    }
    Ok(names)
}

/// The names of a set, in order.
fn in_order(alloc: Global, names: BTreeSet<String>) -> Result<Vec<String>, AllocError>
    ensures items { IfOk result (λ v. v.items ≡ names.keys) }
    ensures ordered { IfOk result (λ v. IsStrictlySortedBy string_cmp v.items) }
{
    names.into_iter().collect(alloc)
}

/// The newest procedure of each of the names, in their order.
fn newest_of_each<'a>(
    alloc: Global,
    procedures: &[&'a Procedure],
    names: &[String],
) -> Result<Vec<&'a Procedure>, AllocError>
    ensures { IfOk result (λ all. in_a_row all.items ≡ found (in_a_row procedures.now) (map string_bytes names.now)) }
{
    let mut all = Vec::new(alloc);
    for name in names {
        if let Some(procedure) = newest_of(procedures, name.as_str()) {
            all.push(procedure)?;
        }
    }
    Ok(all)
}

/// The texts of procedures, one a line.
fn lines_of(alloc: Global, procedures: &[&Procedure]) -> Result<String, AllocError>
    ensures { IfOk result (λ text. string_bytes text ≡ listing_text (in_a_row procedures.now)) }
{
    let mut text = String::new(alloc);
    for i in 0..procedures.len() {
        let line = procedure_text(alloc, procedures[i])?;
        text.push_str(line.as_str())?;
        text.push('\n')?;
    }
    Ok(text)
}
