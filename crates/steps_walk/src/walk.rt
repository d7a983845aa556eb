//! The open cell, and its steps.
ghost use Rattle.std.specs.Prelude.{◌≡◌, ◌+◌, false, IfOk};
ghost use Rattle.janus_meaning.specs.Writes.{IsWritten};
ghost use Rattle.kernel_machine.specs.StepsOfSlices.{steps_on, steps_back};
ghost use Rattle.kernel_runner.specs.Runner.{Runs, CameBy, count_of, writes_of, steps_of};

use crate::body::{Body, text_of};
use crate::turning::step_back;
use janus_places::Table;
use kernel_history::OpenCell;
use kernel_machine::Progress;
use std::alloc::{AllocError, Global};
use std::sync::ledger::Ledger;

/// A walk through a cell.
#[derive(Drop)]
pub struct Walk<L: Ledger> {
    pub(crate) open: OpenCell<L>,
    /// The places of the cell's own code.
    pub(crate) block: Table,
    /// The bodies that were met so far.
    pub(crate) met: Vec<Body>,
}

impl<L: Ledger> Walk<L> {
    ghost use Rattle.std.specs.Prelude.{IfSome, IsSome, OnOk, OnErr, ℕ};
    ghost use Rattle.steps_walk.specs.Walking.{StepsBack};
    ghost use Rattle.steps_walk.specs.Walk.{runner_of, program_of, tree_of, bodies_of, IsEntered, IsWalking, Moves, KeepsMet};
    ghost use Rattle.steps_walk.specs.Bodies.{IsMet};
    ghost use Rattle.steps_walk.specs.Standing.{IsBodyAt, IsMetAt, IsMetHere, AreMet, HasBody};

    /// A walk from where the open cell stands; the only error is want of memory.
    pub fn of(alloc: Global, entered: OpenCell<L>) -> Result<Walk<L>, AllocError>
        requires { IsEntered entered }
        ensures walks { IfOk result IsWalking }
        ensures runner { IfOk result (λ walk. runner_of walk ≡ entered.runner) }
        ensures program { IfOk result (λ walk. program_of walk ≡ entered.program) }
        ensures tree { IfOk result (λ walk. tree_of walk ≡ entered.tree) }
    {
        entered.runner.entries.one_number_law();
        let block = Table::of(alloc, &entered.program.cell.statements)?;
        Ok(Walk {
            open: entered,
            block,
            met: Vec::new(alloc),
        })
    }

    /// Ends. An owner who calls this has nothing of the walk to let go himself.
    pub fn discard(self) {}

    /// How many steps of the cell are taken.
    pub fn count(&self) -> u64
        ensures { result ≡ count_of (runner_of self.now) }
    {
        self.open.runner.count()
    }

    /// Takes up to `m` steps on: fewer where the cell ends or meets a fault, which changes nothing.
    pub fn on(&mut self, m: u64) -> Progress
        requires { IsWalking self.old }
        ensures runs { Runs (program_of self.old) m result (runner_of self.old) (runner_of self.new) }
        ensures walks { IsWalking self.new }
        ensures moves { Moves self.old self.new }
        ensures written { IsWritten (steps_on (count_of (runner_of self.old)) m result) (writes_of (runner_of self.old)) (writes_of (runner_of self.new)) }
        ensures counted { steps_of (runner_of self.new) ≡ steps_of (runner_of self.old) + steps_on (count_of (runner_of self.old)) m result }
        ensures came { CameBy (program_of self.old) m (steps_on (count_of (runner_of self.old)) m result) (runner_of self.old) (runner_of self.new) }
        ensures bodies { bodies_of self.new ≡ bodies_of self.old }
    {
        self.open.runner.run(&self.open.program, m)
    }

    /// Takes `m` steps back, or all.
    pub fn back(&mut self, m: u64)
        requires { IsWalking self.old }
        ensures goes { StepsBack (program_of self.old) m (runner_of self.old) (runner_of self.new) }
        ensures walks { IsWalking self.new }
        ensures moves { Moves self.old self.new }
        ensures written { IsWritten (steps_back (count_of (runner_of self.old)) m) (writes_of (runner_of self.old)) (writes_of (runner_of self.new)) }
        ensures counted { steps_of (runner_of self.new) ≡ steps_of (runner_of self.old) + steps_back (count_of (runner_of self.old)) m }
    {
        step_back(&mut self.open.runner, &self.open.program, m);
    }

    /// The index of the body that was met of the name of a number.
    pub(crate) fn body_of(&self, number: usize) -> Option<usize>
        ensures some { IfSome result (IsBodyAt self.now number) }
        ensures met { IsMetAt self.now number → IsSome result }
    {
        for k in 0..self.met.len() {
            if self.met[k].number == number {
                return Some(k);
            }
        }
        None
    }

    /// Meets the bodies in which the open calls run, the innermost among them; an error for want of memory, after which some of them are met.
    #[tactic(auto, using(crate::proofs::Moving::met_none))]
    pub fn meet_calls(&mut self, alloc: Global) -> Result<(), AllocError>
        requires { IsWalking self.old }
        ensures kept { KeepsMet self.old self.new }
        ensures met { OnOk result (AreMet self.new) }
    {
        for i in 0..self.open.runner.cursor.open_calls() {
            let number = self.open.runner.cursor.open_call(i).procedure;
            self.meet(alloc, number)?;
        }
        Ok(())
    }

    /// Meets the body in which the innermost call runs, if one is open; an error for want of memory.
    #[tactic(auto, using(crate::proofs::Moving::met_none))]
    pub fn meet_here(&mut self, alloc: Global) -> Result<(), AllocError>
        requires { IsWalking self.old }
        ensures kept { KeepsMet self.old self.new }
        ensures met { OnOk result (IsMetHere self.new) }
        // Nothing is wanted where that body was met, or where no call is open.
        ensures err { OnErr result (IsMetHere self.new → ⊥) }
    {
        let open = self.open.runner.cursor.open_calls();
        if open == 0 {
            return Ok(());
        }
        let number = self.open.runner.cursor.open_call(open - 1).procedure;
        self.meet(alloc, number)
    }

    /// Meets the body in effect of the name of a number; an error for want of memory.
    #[tactic(auto, using(crate::proofs::Moving::met_none))]
    fn meet(&mut self, alloc: Global, number: usize) -> Result<(), AllocError>
        requires { IsWalking self.old }
        ensures kept { KeepsMet self.old self.new }
        ensures met { OnOk result (HasBody self.old number → IsMetAt self.new number) }
        ensures err { OnErr result (IsMetAt self.new number → ⊥) }
        // Those that were met before are met still.
        ensures more { (other : ℕ) → IsMetAt self.old other → IsMetAt self.new other }
    {
        if self.body_of(number).is_some() {
            return Ok(());
        }
        if let Some(body) = self.made_body(alloc, number)? {
            self.met.push(body)?;
        }
        Ok(())
    }

    /// What is to be kept of the body in effect of the name of a number; the only error is want of memory.
    fn made_body(&self, alloc: Global, number: usize) -> Result<Option<Body>, AllocError>
        requires { IsWalking self.now }
        ensures met { IfOk result (λ made. IfSome made (IsMet (runner_of self.now).entries (program_of self.now) (tree_of self.now))) }
        ensures number { IfOk result (λ made. IfSome made (λ body. body.number ≡ number)) }
        ensures some { IfOk result (λ made. HasBody self.now number → IsSome made) }
    {
        if number >= self.open.runner.entries.len() {
            return Ok(None);
        }
        let name = self.open.runner.entries.name(number);
        match text_of(&self.open.program, &self.open.tree, name) {
            Some((node, procedure)) => Ok(Some(Body::of(alloc, number, node, procedure)?)),
            None => Ok(None),
        }
    }
}
