//! A procedure as it runs.

ghost use Rattle.std.specs.Prelude.{◌≡◌, ◌≤◌, length, IfOk};
ghost use Rattle.janus_meaning.specs.Limit.{parameter_limit};
ghost use Rattle.janus_code.specs.CodeBlock.{code_block};
ghost use Rattle.janus_code.specs.Slotted.{all_slots};
ghost use Rattle.janus_machine.specs.LinkedProcedure.{name_number_of, kinds_of, kinds_told, body_of};

use crate::linked_code::LinkedCode;
use janus_check::Kind;
use janus_code::FlatParameter;
use janus_meaning::limit::PARAMETER_LIMIT;
use std::alloc::{AllocError, Global};

/// The number of a procedure's name, the kinds of its parameters, and its body both ways, which runs over these.
#[derive(Drop)]
pub struct LinkedProcedure {
    pub(crate) name: usize,
    pub(crate) kinds: Vec<Kind>,
    pub(crate) book: LinkedCode,
}

impl LinkedProcedure {
    ghost use Rattle.janus_machine.specs.Places.{block_in, names_under};
    ghost use Rattle.janus_machine.specs.declared.direction.Direction.TheVariants.{Forward};

    /// The procedure of flat code; an error for want of memory. One with more parameters than a procedure may have, or with a body that `LinkedCode::new`
    /// refuses, is refused as if there were none.
    pub fn new(
        alloc: Global,
        flat: janus_code::FlatProcedure,
    ) -> Result<LinkedProcedure, AllocError>
        ensures name { IfOk result (λ procedure. name_number_of procedure ≡ flat.name.number) }
        ensures kinds { IfOk result (λ procedure. kinds_of procedure ≡ kinds_told flat.parameters.items) }
        ensures parameters { IfOk result (λ procedure. names_under (body_of procedure) ≡ length flat.parameters.items) }
        ensures few { IfOk result (λ procedure. names_under (body_of procedure) ≤ parameter_limit) }
        ensures body { IfOk result (λ procedure. block_in (body_of procedure) Forward ≡ code_block all_slots flat.body) }
    {
        let name = flat.name.number;
        let count = flat.parameters.len();
        if count > PARAMETER_LIMIT {
            return Err(AllocError);
        }
        let kinds = kinds_in_order(alloc, &flat.parameters)?;
        let book = LinkedCode::new(alloc, flat.body, count as u32)?;
        Ok(LinkedProcedure { name, kinds, book })
    }

    /// The kinds of its parameters, in their order.
    pub fn kinds(&self) -> &[Kind]
        ensures { result.now ≡ kinds_of self.now }
    {
        &self.kinds
    }
}

/// The kinds of parameters, in their order, with no room to spare, since they are kept for long. The only error is want of memory.
fn kinds_in_order(alloc: Global, parameters: &[FlatParameter]) -> Result<Vec<Kind>, AllocError>
    ensures { IfOk result (λ kinds. kinds.items ≡ kinds_told parameters.now) }
{
    let mut kinds = Vec::new(alloc);
    for i in 0..parameters.len() {
        kinds.push(parameters[i].kind)?;
    }
    kinds.shrink_to_fit();
    Ok(kinds)
}
