//! What went wrong with a cell, a post or an expression.
ghost use Rattle.std.specs.Prelude.{◌≡◌, IfOk, option_map};
ghost use Rattle.kernel_reply.specs.Problems as table;
ghost use Rattle.kernel_reply.specs.Told.{told};

use kernel_ask::{ExpFault, Outcome, PostFault, exp_fault_line, outcome_line, post_fault_line};
use std::alloc::{AllocError, Global};

/// What went wrong: its name, and the line that tells it.
#[derive(Drop)]
pub(crate) struct Problem {
    pub ename: &'static str,
    pub evalue: String,
}

/// What went wrong with a cell; nothing where it ran.
pub(crate) fn cell_problem(alloc: Global, outcome: &Outcome) -> Result<Option<Problem>, AllocError>
    ensures { IfOk result (λ p. option_map told p ≡ table.cell_problem outcome.now) }
{
    let ename = match *outcome {
        Outcome::Failed(fault, _) => fault.name(),
        Outcome::Interrupted(_) => "Interrupted",
        Outcome::Refused(refusal) => refusal.name(),
        Outcome::Ran(_, _) => return Ok(None),
        Outcome::Undid(_, _) => return Ok(None),
        Outcome::Redid(_, _) => return Ok(None),
        Outcome::Went(_, _, _) => return Ok(None),
    };
    let evalue = outcome_line(alloc, outcome)?;
    Ok(Some(Problem { ename, evalue }))
}

/// Why a job was not posted.
pub(crate) fn post_problem(alloc: Global, fault: PostFault) -> Result<Problem, AllocError>
    ensures { IfOk result (λ p. told p ≡ table.post_problem fault) }
{
    let evalue = post_fault_line(alloc, fault)?;
    Ok(Problem {
        ename: fault.name(),
        evalue,
    })
}

/// Why an expression has no value.
pub(crate) fn exp_problem(alloc: Global, fault: ExpFault) -> Result<Problem, AllocError>
    ensures { IfOk result (λ p. told p ≡ table.exp_problem fault) }
{
    let evalue = exp_fault_line(alloc, fault)?;
    match fault {
        ExpFault::Refused(refusal) => Ok(Problem {
            ename: refusal.name(),
            evalue,
        }),
        ExpFault::Met(fault) => Ok(Problem {
            ename: fault.name(),
            evalue,
        }),
    }
}
