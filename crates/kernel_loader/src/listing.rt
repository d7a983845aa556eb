//! The names of a cell's procedures, each with a number in the table of procedures' names.
ghost use Rattle.std.specs.Prelude.{◌≤◌, ◌+◌, OnOk, length, map};
ghost use Rattle.janus_slots.specs.Numbers.{GoOn};
ghost use Rattle.janus_slots.specs.Law.{AreListed};
ghost use Rattle.janus_syntax.specs.Tree.{procedures_view};
ghost use Rattle.janus_syntax.specs.View.{plain_procedure};
ghost use Rattle.kernel_loader.specs.Loading.{AddNamesOf};

use janus_slots::Names;
use janus_syntax::tree::Procedure;
use std::alloc::AllocError;

/// Adds the names of procedures behind the others, where they aren't there yet. The only error is want of memory, after which some of them may be there.
pub fn list_all(entries: &mut Names, procedures: &[Procedure]) -> Result<(), AllocError>
    ensures listed { OnOk result (AreListed entries.new (map plain_procedure (procedures_view procedures.now))) }
    ensures onward { GoOn entries.old entries.new }
    ensures only { AddNamesOf entries.old entries.new (map plain_procedure (procedures_view procedures.now)) }
    ensures few { length entries.new ≤ length entries.old + length procedures.now }
{
    for i in 0..procedures.len() {
        let _number = entries.add(procedures[i].name.text.as_str())?;
    }
    Ok(())
}
