//! The procedures of a world, the newest first, as the cells on the path from its node to the root define them.
ghost use Rattle.std.specs.Prelude.{◌≡◌, ℕ, ◌++◌, [], List, map, IfOk, OnOk};
ghost use Rattle.janus_meaning.specs.World.{define as defined_over};
ghost use Rattle.janus_syntax.specs.Tree.{procedures_view};
ghost use Rattle.janus_syntax.specs.View.{plain_procedure};
ghost use Rattle.kernel_loader.specs.Defined.{in_a_row};
ghost use Rattle.kernel_history.specs.Fields.{past_of, job_of, work_of};
ghost use Rattle.kernel_history.specs.Bodies.{over_here, procedures_in};
ghost use Rattle.kernel_history.specs.Kept.{HasPathAt, HasPathFor};
ghost use Rattle.kernel_machine.specs.Legal.{IsLegal, IsPossibleAt, IsPossibleWork};
ghost use Rattle.kernel_machine.specs.State.{procedures_at};

use crate::job::{Open, Work};
use crate::tree::{HistoryTree, below};
use janus_syntax::tree::Procedure;
use kernel_machine::Way;
use std::alloc::{AllocError, Global};

/// The procedures of the cell that is open, which its steps began with; none between two cells, and none of a cell that is undone.
pub fn own_procedures<'a>(tree: &'a HistoryTree, job: &'a Open) -> &'a [Procedure]
    requires legal { IsLegal (past_of tree.now) }
    requires possible { IsPossibleAt (past_of tree.now) (job_of job.now) }
    requires path { HasPathAt tree.now job.now }
    ensures { over_here result.now tree.now ≡ procedures_at (past_of tree.now) (job_of job.now) }
{
    match job {
        Open::Idle | Open::Border(_) => &[],
        Open::Inside(entered) => procedures_of(tree, &entered.work),
    }
}

/// The procedures that the work's cell defines as it begins.
fn procedures_of<'a>(tree: &'a HistoryTree, work: &'a Work) -> &'a [Procedure]
    requires legal { IsLegal (past_of tree.now) }
    requires possible { IsPossibleWork (past_of tree.now) (work_of work.now) }
    requires path { HasPathFor tree.now work.now }
    ensures { over_here result.now tree.now ≡ procedures_in tree.now work.now }
{
    match work {
        Work::Cell(program) => program.procedures(),
        Work::Move(travel) => match travel.way() {
            Way::Up => &[],
            Way::Down => tree
                .cells
                .content(below(tree, *travel))
                .program
                .procedures(),
        },
    }
}

/// The procedures of the position's world with these defined over them, the newest first. A newer one hides an older one of its name, which
/// stands behind it. The only error is want of memory.
pub fn all_procedures<'a>(
    alloc: Global,
    tree: &'a HistoryTree,
    own: &'a [Procedure],
) -> Result<Vec<&'a Procedure>, AllocError>
    requires { IsLegal (past_of tree.now) }
    ensures { IfOk result (λ all. in_a_row all.items ≡ over_here own.now tree.now) }
{
    let mut all = Vec::new(alloc);
    add_newest_first(&mut all, own)?;
    let mut at = tree.position;
    while at != 0 {
        add_newest_first(&mut all, tree.cells.content(at).program.procedures())?;
        at = tree.cells.parent(at);
    }
    Ok(all)
}

/// Adds the procedures of a cell, the last one first. The only error is want of memory.
fn add_newest_first<'a>(
    all: &mut Vec<&'a Procedure>,
    procedures: &'a [Procedure],
) -> Result<(), AllocError>
    ensures { OnOk result (in_a_row all.new.items ≡ in_a_row all.old.items ++ defined_over (map plain_procedure (procedures_view procedures.now)) []) }
{
    let mut left = procedures.len();
    while left > 0 {
        left -= 1;
        all.push(&procedures[left])?;
    }
    Ok(())
}
