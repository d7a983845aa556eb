//! The history: the tree of cells, the one store, and the open job. It is what a kernel has besides its queue.
ghost use Rattle.std.specs.Prelude.{◌≡◌, ◌+◌, ◌<◌, ℕ, List, IfOk, IfErr, IfSome, IfNone, OnOk, OnErr, length, nat_lt};
ghost use Rattle.kernel_machine.specs.State.{Idle, Border, here, is_full, Shown, new_state};
ghost use Rattle.kernel_history.specs.Fields.{past_of, nodes_of, state_of, IsStageOf};
ghost use Rattle.kernel_machine.specs.declared.outcome.Refusal.TheVariants.{Memory};
ghost use Rattle.kernel_machine.specs.declared.travel.Aim.TheVariants.{Undo, Redo};
ghost use Rattle.kernel_machine.specs.Legal.{IsLegal, IsPossible, IsCounted, CanGo, can_undo, can_redo};
ghost use Rattle.kernel_machine.specs.Slices.{IsSlice, cells};
ghost use Rattle.kernel_machine.specs.StepsOfSlices.{WritesOnSlice, StepsOnSlice};
ghost use Rattle.kernel_machine.specs.Begins.{TakesCell, TakesMove, TakesGoto, Departs, Enters, Declares, travel_to};
ghost use Rattle.janus_meaning.specs.World.{entered};
ghost use Rattle.janus_slots.specs.Numbers.{GoOn};
ghost use Rattle.janus_slots.specs.Slots.{names_in};
ghost use Rattle.janus_slots.specs.Law.{AreListed};
ghost use Rattle.kernel_loader.specs.StoreState.{shown_store};
ghost use Rattle.kernel_loader.specs.Procedures.{kept_in};
ghost use Rattle.kernel_machine.specs.Text.{Accepts, Refuses};
ghost use Rattle.kernel_loader.specs.Program.{cell_of_program, procedures_of, IsReady};
ghost use Rattle.kernel_loader.specs.Runner.{over, Becomes, Is, Between, KeepsCounts as RunnerKeepsCounts};
ghost use Rattle.kernel_history.specs.CountedState.{KeepsCounts};
ghost use Rattle.kernel_loader.specs.Keeping.{KeepsOlder};
ghost use Rattle.kernel_loader.specs.Loading.{KeepsShown};
ghost use Rattle.kernel_machine.specs.Extent.{IsExtent};
ghost use Rattle.janus_syntax.specs.Tree.{cell_view};
ghost use Rattle.kernel_history.specs.NodeTrees.{IsTreeAt, HasNoTree};
ghost use Rattle.kernel_history.specs.DeclaredNames.{known_by_names, KnowsNamesOf};
ghost use Rattle.kernel_history.specs.Bodies.{NodesAreReady, AreInOrder};
ghost use Rattle.kernel_history.specs.TableNames.{AreItsOwn};
ghost use Rattle.kernel_history.specs.Standing.{shown_here, StandsAt};
ghost use Rattle.kernel_history.specs.Kept.{HasPath, Kept, IsKept};
ghost use Rattle.kernel_history.specs.OpenCell.{IsOpenCell};

use crate::extent::extent_of;
use crate::job::{Entered, Open, Stage, Work};
use crate::open_cell::OpenCell;
use crate::settle::{finished, slice_job};
use crate::tree::{HistoryTree, below, can_go_down, can_go_up, find_way, is_full};
use crate::view::View;
use cell_tree::Tree as Cells;
use janus_syntax::tree::Cell;
use kernel_loader::{DeclaredNames, Program, Runner, load};
use kernel_machine::{
    Aim, Begun, Extent, Heading, Outcome, Refusal, Sliced, Travel, TravelEnd, Way,
};
use std::alloc::{AllocError, Global};
use std::marker::Model;
use std::sync::ledger::{Blank, Ledger};

/// The tree, the runner with the one store, and the open job.
/// Contracts see a state of the machine, with the worlds of all nodes, of which none is kept here, and the counts of the store's writes and of
/// the steps that were taken.
#[derive(Drop)]
pub struct History<L: Ledger> {
    tree: HistoryTree,
    runner: Runner<L>,
    job: Open,
}

impl<L: Ledger> Model for History<L> {
    ghost use Rattle.kernel_history.specs.CountedState.{CountedState, counted_code};

    ghost Value = { CountedState };

    ghost coded = { counted_code };

    ghost use Rattle.kernel_history.specs.Fields.{state_of};
    ghost use Rattle.kernel_history.specs.Kept.{IsKept};
    ghost use Rattle.kernel_loader.specs.Runner.{writes_of, steps_of};

    ghost view = { λ a. record { state = state_of a.tree a.job; writes = writes_of a.runner; steps = steps_of a.runner } };

    ghost invariant = { λ a. IsKept a.tree a.runner a.job };
}

/// Enters the next cell of a travel: an undone one takes no memory.
fn enter_next<L: Ledger>(
    tree: &HistoryTree,
    runner: &mut Runner<L>,
    travel: Travel,
) -> Result<(), AllocError>
    requires legal { IsLegal (past_of tree.now) }
    requires possible { IsPossible (nodes_of tree.now) tree.now.cells.favourites tree.now.position travel }
    requires path { HasPath travel.aim tree.now travel.down }
    requires is { Is runner.old (Between (shown_here tree.now)) }
    requires ready { NodesAreReady tree.now runner.old }
    requires order { AreInOrder tree.now }
    ensures ok { OnOk result (StandsAt tree.now (Open.Inside (record { work = Work.Move travel; count = 0; heading = Heading.GoesOn })) runner.new) }
    ensures err { OnErr result (Becomes runner.old.counted.store runner.new.counted.store (shown_store runner.old.counted.store)) }
    ensures same { OnErr result (runner.new.procedures ≡ runner.old.procedures) }
    ensures bodies { kept_in runner.new.procedures ≡ kept_in runner.old.procedures }
    ensures entries { runner.new.entries ≡ runner.old.entries }
    ensures declares { OnErr result (Declares (past_of tree.now) travel) }
    ensures counts { RunnerKeepsCounts runner.old runner.new }
{
    match travel.way() {
        Way::Up => {
            runner.enter_inverse(&tree.cells.content(tree.position).program);
            Ok(())
        }
        Way::Down => runner.enter(&tree.cells.content(below(tree, travel)).program),
    }
}

/// Enters the next cell of a travel, or ends it for want of memory.
fn enter<L: Ledger>(tree: &HistoryTree, runner: &mut Runner<L>, travel: Travel) -> (Open, Begun)
    requires { Kept tree.now runner.old (Open.Border travel) }
    ensures step { Enters (past_of tree.now) travel result.1 (state_of tree.now result.0) }
    ensures kept { IsKept tree.now runner.new result.0 }
    ensures counts { RunnerKeepsCounts runner.old runner.new }
{
    if enter_next(tree, runner, travel).is_err() {
        return (
            Open::Idle,
            Begun::Ended(finished(travel, TravelEnd::NoMemory)),
        );
    }
    let entered = Entered {
        work: Work::Move(travel),
        count: 0,
        heading: Heading::GoesOn,
    };
    (Open::Inside(entered), Begun::Going)
}

/// Ends a travel without cells at once, or enters its first cell.
fn depart<L: Ledger>(tree: &HistoryTree, runner: &mut Runner<L>, travel: Travel) -> (Open, Begun)
    requires idle { Kept tree.now runner.old Open.Idle }
    requires way { CanGo travel.aim (nodes_of tree.now) tree.now.cells.favourites tree.now.position travel.up travel.down }
    requires counted { IsCounted travel }
    requires path { HasPath travel.aim tree.now travel.down }
    ensures step { Departs (cells travel) (past_of tree.now) travel result.1 (state_of tree.now result.0) }
    ensures kept { IsKept tree.now runner.new result.0 }
    ensures counts { RunnerKeepsCounts runner.old runner.new }
{
    if travel.is_over() {
        return (Open::Idle, Begun::Ended(finished(travel, TravelEnd::All)));
    }
    enter(tree, runner, travel)
}

/// The program of a posted cell's text over the world of the position, which the runner shows; or why the text is refused. Contracts alone read the tree.
fn prepare<L: Ledger>(
    alloc: Global,
    text: &str,
    _tree: &HistoryTree,
    runner: &mut Runner<L>,
) -> Result<Program, Refusal>
    requires legal { IsLegal (past_of _tree.now) }
    requires is { (bodies : List ℕ) × Is runner.old (Between (over bodies (here (past_of _tree.now)))) }
    ensures accepts { IfOk result (λ program. Accepts (here (past_of _tree.now)) text.now (cell_of_program program)) }
    ensures refuses { IfErr result (Refuses (here (past_of _tree.now)) text.now) }
    ensures ready { IfOk result (λ program. IsReady runner.new.entries
        (names_in (entered (cell_of_program program) (here (past_of _tree.now))).store) runner.new.procedures program) }
    ensures named { IfOk result (λ program. AreListed runner.new.entries (procedures_of program)) }
    // Its bodies are behind those that were kept, with none behind them, and what is refused leaves those alone.
    ensures behind { IfOk result (λ program. program.first ≡ length (kept_in runner.old.procedures)) }
    ensures first_name { IfOk result (λ program. program.first_name ≡ length runner.old.entries) }
    ensures own_names { IfOk result (λ program. AreItsOwn program runner.new.entries) }
    ensures no_names { OnErr result (runner.new.entries ≡ runner.old.entries) }
    ensures last { IfOk result (λ program. length (kept_in runner.new.procedures) ≡ program.first + length (procedures_of program)) }
    ensures older { KeepsOlder runner.old.procedures runner.new.procedures }
    ensures none { OnErr result (kept_in runner.new.procedures ≡ kept_in runner.old.procedures) }
    ensures kept { runner.new.counted.store ≡ runner.old.counted.store }
    ensures entries { GoOn runner.old.entries runner.new.entries }
    ensures shown { KeepsShown runner.old runner.new }
    ensures counts { RunnerKeepsCounts runner.old runner.new }
{
    load(alloc, text, runner)
}

impl<L: Ledger> History<L> {
    /// An empty history, with no writes and no steps so far, which are counted in the ledger that is opened by this blank.
    ///
    /// # Errors
    ///
    /// `Refusal::Memory` where there is no memory for it.
    pub fn new(alloc: Global, blank: Blank) -> Result<History<L>, Refusal>
        requires name { blank.name ≡ L.name }
        requires parts { blank.parts ≡ L.parts }
        requires two { 1 < L.parts }
        ensures state { IfOk result (λ history. history.state ≡ new_state) }
        ensures unwritten { IfOk result (λ history. history.writes ≡ 0) }
        ensures no_steps { IfOk result (λ history. history.steps ≡ 0) }
        ensures memory { IfErr result (λ refusal. refusal ≡ Memory) }
    {
        let Ok(cells) = Cells::new(alloc) else {
            return Err(Refusal::Memory);
        };
        let Ok(runner) = Runner::new(alloc, blank) else {
            return Err(Refusal::Memory);
        };
        Ok(History {
            tree: HistoryTree { cells, position: 0 },
            runner,
            job: Open::Idle,
        })
    }

    /// The shown world.
    pub fn world(&self) -> View<'_, L>
        ensures { Shown self.now.state result }
    {
        View::of(&self.runner, &self.tree, &self.job)
    }

    /// The declared names between two jobs, lent, as an expression is checked over them: those of the position's world. It takes no memory.
    pub fn declared_names(&self) -> DeclaredNames<'_, L>
        requires { self.now.state.job ≡ Idle }
        ensures known { result ≡ known_by_names (here self.now.state.past).store }
        ensures shape { KnowsNamesOf result (here self.now.state.past).store }
    {
        DeclaredNames::new(&self.runner.counted.store)
    }

    /// The number of the node at which the kernel stands.
    pub fn position(&self) -> usize
        ensures { result ≡ self.now.state.past.position }
    {
        self.tree.position
    }

    /// A tree that is read as the cell of a node; none of the root, or where there is no such node. Which places its names and numbers have, and which
    /// names stand behind `delocal`, is not said.
    pub fn cell(&self, node: usize) -> Option<&Cell>
        ensures some { IfSome result (λ cell. IsTreeAt self.now.state.past node (cell_view cell.now)) }
        ensures none { IfNone result (HasNoTree self.now.state.past node) }
    {
        if node == 0 || !self.tree.cells.has(node) {
            return None;
        }
        Some(self.tree.cells.content(node).program.cell())
    }

    /// How far an undo and a redo can go, and how many nodes there are.
    pub fn extent(&self) -> Extent
        ensures { IsExtent self.now.state.past result }
    {
        extent_of(&self.tree)
    }

    /// Begins a posted cell: it takes all memory of its run, that of its node included. Where the history has as many nodes as it
    /// may have, the cell is refused whatever its text.
    pub fn begin_cell(&mut self, alloc: Global, text: &str) -> Begun
        requires { self.old.state.job ≡ Idle }
        ensures takes { TakesCell self.old.state.past text.now (is_full self.old.state.past) result self.new.state }
        ensures counts { KeepsCounts self.old self.new }
    {
        if is_full(&self.tree) {
            return Begun::Ended(Outcome::Refused(Refusal::HistoryFull));
        }
        let program = match prepare(alloc, text, &self.tree, &mut self.runner) {
            Ok(program) => program,
            Err(refusal) => return Begun::Ended(Outcome::Refused(refusal)),
        };
        if self.tree.cells.room().is_err() || self.runner.enter(&program).is_err() {
            self.runner.forget(&program);
            return Begun::Ended(Outcome::Refused(Refusal::Memory));
        }
        self.job = Open::Inside(Entered {
            work: Work::Cell(program),
            count: 0,
            heading: Heading::GoesOn,
        });
        Begun::Going
    }

    /// Begins an undo of `k` cells.
    pub fn begin_undo(&mut self, k: u32) -> Begun
        requires { self.old.state.job ≡ Idle }
        ensures takes { TakesMove self.old.state.past (travel_to Undo k 0) (can_undo self.old.state.past.nodes self.old.state.past.position k)
            result self.new.state }
        ensures counts { KeepsCounts self.old self.new }
    {
        if !can_go_up(&self.tree, k) {
            return Begun::Ended(Outcome::Refused(Refusal::TooFar));
        }
        let travel = Travel::new(Aim::Undo, k as usize, 0);
        let (job, told) = depart(&self.tree, &mut self.runner, travel);
        self.job = job;
        told
    }

    /// Begins a redo of `k` cells.
    pub fn begin_redo(&mut self, k: u32) -> Begun
        requires { self.old.state.job ≡ Idle }
        ensures takes { TakesMove self.old.state.past (travel_to Redo 0 k) (can_redo self.old.state.past.favourites self.old.state.past.position k)
            result self.new.state }
        ensures counts { KeepsCounts self.old self.new }
    {
        if !can_go_down(&self.tree, k) {
            return Begun::Ended(Outcome::Refused(Refusal::TooFar));
        }
        let travel = Travel::new(Aim::Redo, 0, k as usize);
        let (job, told) = depart(&self.tree, &mut self.runner, travel);
        self.job = job;
        told
    }

    /// Begins a goto to the node `n`.
    pub fn begin_goto(&mut self, n: u32) -> Begun
        requires { self.old.state.job ≡ Idle }
        ensures takes { TakesGoto self.old.state.past n (nat_lt n (length self.old.state.past.nodes)) result self.new.state }
        ensures counts { KeepsCounts self.old self.new }
    {
        let n = n as usize;
        let Ok(way) = find_way(&mut self.tree, n) else {
            return Begun::Ended(Outcome::Refused(Refusal::NoNode));
        };
        let travel = Travel::new(Aim::Goto(n), way.up, way.down);
        let (job, told) = depart(&self.tree, &mut self.runner, travel);
        self.job = job;
        told
    }

    /// Enters the next cell of a travel.
    pub fn enter(&mut self, travel: Travel) -> Begun
        requires { self.old.state.job ≡ Border travel }
        ensures enters { Enters self.old.state.past travel result self.new.state }
        ensures counts { KeepsCounts self.old self.new }
    {
        let (job, told) = enter(&self.tree, &mut self.runner, travel);
        self.job = job;
        told
    }

    /// Where the open job stands.
    pub fn stage(&self) -> Stage
        ensures { IsStageOf self.now.state result }
    {
        match &self.job {
            Open::Idle => Stage::Idle,
            Open::Border(travel) => Stage::Border(*travel),
            Open::Inside(_) => Stage::Inside,
        }
    }

    /// One slice of up to `m` steps. It takes no memory.
    pub fn slice(&mut self, m: u64, asked: bool) -> Sliced
        ensures slice { IsSlice self.old.state m asked result self.new.state }
        ensures written { WritesOnSlice self.old.state m asked self.old.writes self.new.writes }
        ensures counted { StepsOnSlice self.old.state m asked self.old.steps self.new.steps }
    {
        slice_job(&mut self.tree, &mut self.runner, &mut self.job, m, asked)
    }

    /// Takes the posted cell out that is open and goes on; else all is let go.
    pub fn into_open_cell(self) -> Option<OpenCell<L>>
        ensures { IfSome result (IsOpenCell self.state) }
    {
        let History { tree, runner, job } = self;
        let Open::Inside(entered) = job else {
            return None;
        };
        let Entered {
            work,
            count: _,
            heading,
        } = entered;
        match (work, heading) {
            (Work::Cell(program), Heading::GoesOn) => Some(OpenCell {
                runner,
                program,
                tree,
            }),
            _ => None,
        }
    }
}
