//! A slice and its parts: steps onward and back, and what comes at the end of a cell. None of them takes memory, and none moves the program of
//! the open job before the end of its cell.
ghost use Rattle.std.specs.Prelude.{◌≡◌, ◌+◌, ◌-◌, IfSome, IfNone, false};
ghost use Rattle.kernel_machine.specs.State.{Past};
ghost use Rattle.kernel_machine.specs.declared.travel.Way.TheVariants.{Up, Down};
ghost use Rattle.kernel_machine.specs.Travel.{next_way};
ghost use Rattle.kernel_history.specs.Fields.{past_of, state_of, work_of, job_of};
ghost use Rattle.kernel_machine.specs.Legal.{IsLegal, IsPossibleWork};
ghost use Rattle.kernel_machine.specs.Slices.{finished as the_finished, turned as the_turned, Backs, cells, Arrives, Goes, IsSlice};
ghost use Rattle.janus_meaning.specs.Writes.{IsWritten};
ghost use Rattle.kernel_machine.specs.StepsOfSlices.{steps_back, WritesOn, WritesOnSlice, StepsOn, StepsOnSlice};
ghost use Rattle.kernel_loader.specs.StoreState.{IsWhole};
ghost use Rattle.kernel_loader.specs.Runner.{Is, Between, KeepsCounts, writes_of, steps_of};
ghost use Rattle.kernel_history.specs.Bodies.{IsProgramOf, NodesAreReady, KeepsNoOther};
ghost use Rattle.kernel_history.specs.TableNames.{AreOfNodes};
ghost use Rattle.kernel_history.specs.Standing.{shown_here};
ghost use Rattle.kernel_history.specs.Kept.{Kept, left_by, HasCome, HasComeAt, ComesToEnd, HasPathFor, SettlesFrom, SettlesAt};
ghost use Rattle.kernel_history.specs.Kept.{entries_left};
ghost use Rattle.kernel_history.specs.Came.{CameInside, CameBack, CameAt, ends_well};

use crate::job::{Entered, Open, Work};
use crate::tree::{EndedCell, HistoryTree, below};
use cell_tree::Node;
use kernel_loader::{Program, Runner};
use kernel_machine::{Aim, Heading, Outcome, Progress, Sliced, Travel, TravelEnd, Way, Why};
use std::mem;
use std::sync::ledger::Ledger;

/// The program that the work runs: forward, or for an undo backward.
fn program_of<'a>(tree: &'a HistoryTree, work: &'a Work) -> &'a Program
    requires legal { IsLegal (past_of tree.now) }
    requires possible { IsPossibleWork (past_of tree.now) (work_of work.now) }
    requires path { HasPathFor tree.now work.now }
    ensures { IsProgramOf tree.now work.now result.now }
{
    match work {
        Work::Cell(program) => program,
        Work::Move(travel) => match travel.way() {
            Way::Up => &tree.cells.content(tree.position).program,
            Way::Down => &tree.cells.content(below(tree, *travel)).program,
        },
    }
}

pub fn finished(travel: Travel, end: TravelEnd) -> Outcome
    ensures { result ≡ the_finished travel end }
{
    match travel.aim {
        Aim::Undo => Outcome::Undid(travel.went_up, end),
        Aim::Redo => Outcome::Redid(travel.went_down, end),
        Aim::Goto(_) => Outcome::Went(travel.went_up, travel.went_down, end),
    }
}

fn turned(work: &Work, why: Why) -> Outcome
    ensures { result ≡ the_turned (work_of work.now) why }
{
    match work {
        Work::Cell(_) => match why {
            Why::WasAsked(at) => Outcome::Interrupted(at),
            Why::Faulted(fault, at) => Outcome::Failed(fault, at),
        },
        Work::Move(travel) => finished(*travel, TravelEnd::Asked),
    }
}

/// Back at the count 0: the names that were declared at the begin and the procedures that were defined are taken back, and those of a
/// posted cell are forgotten: of what was loaded for it no body is kept, and no name stands in the table.
fn settle_back<L: Ledger>(tree: &HistoryTree, runner: &mut Runner<L>, work: &Work)
    requires kept { (why : Why) × Kept tree.now runner.old (Open.Inside (record { work = work.now; count = 0; heading = Heading.GoesBack why })) }
    requires whole { IsWhole runner.old.counted.store }
    ensures is { Is runner.new (Between (shown_here tree.now)) }
    ensures ready { NodesAreReady tree.now runner.new }
    ensures no_other { KeepsNoOther tree.now runner.new.procedures }
    ensures no_name { AreOfNodes tree.now runner.new.entries }
    ensures entries { runner.new.entries ≡ entries_left work.now runner.old.entries }
    ensures counts { KeepsCounts runner.old runner.new }
    ensures cursor { runner.new.cursor ≡ runner.old.cursor }
{
    match work {
        Work::Cell(program) => {
            runner.leave(program);
            runner.forget(program);
        }
        Work::Move(travel) => match travel.way() {
            Way::Up => {}
            Way::Down => runner.leave(&tree.cells.content(below(tree, *travel)).program),
        },
    }
}

/// Goes back `m` steps, and settles as not done at the count 0.
fn go_back<L: Ledger>(
    tree: &HistoryTree,
    runner: &mut Runner<L>,
    entered: &mut Entered,
    why: Why,
    m: u64,
) -> Sliced
    requires { Kept tree.now runner.old (Open.Inside (record { work = entered.old.work; count = entered.old.count; heading = Heading.GoesBack why })) }
    ensures step { Backs (past_of tree.now) (work_of entered.old.work) why (entered.old.count - m) result (state_of tree.now (left_by result entered.new)) }
    ensures kept { Kept tree.now runner.new (left_by result entered.new) }
    ensures written { IsWritten (steps_back entered.old.count m) (writes_of runner.old) (writes_of runner.new) }
    ensures counted { steps_of runner.new ≡ steps_of runner.old + steps_back entered.old.count m }
    // The cursor too, where the cell is left by it.
    ensures came { CameInside tree.now entered.old.work m runner.old runner.new }
    ensures back { ends_well result ≡ false }
{
    runner.back(program_of(tree, &entered.work), m);
    let left = entered.count.saturating_sub(m);
    entered.count = left;
    entered.heading = Heading::GoesBack(why);
    if left == 0 {
        settle_back(tree, runner, &entered.work);
        let outcome = turned(&entered.work, why);
        Sliced::Ended(outcome)
    } else {
        Sliced::Backing
    }
}

/// Turns to going back, and goes back `m` steps.
fn turn_back<L: Ledger>(
    tree: &HistoryTree,
    runner: &mut Runner<L>,
    entered: &mut Entered,
    why: Why,
    m: u64,
) -> Sliced
    requires { Kept tree.now runner.old (Open.Inside (record { work = entered.old.work; count = entered.old.count; heading = Heading.GoesOn })) }
    ensures step { Backs (past_of tree.now) (work_of entered.old.work) why (entered.old.count - m) result (state_of tree.now (left_by result entered.new)) }
    ensures kept { Kept tree.now runner.new (left_by result entered.new) }
    ensures written { IsWritten (steps_back entered.old.count m) (writes_of runner.old) (writes_of runner.new) }
    ensures counted { steps_of runner.new ≡ steps_of runner.old + steps_back entered.old.count m }
    ensures back { ends_well result ≡ false }
{
    runner.turn(program_of(tree, &entered.work));
    go_back(tree, runner, entered, why, m)
}

/// A cell of the travel is done, and these are left.
fn arrive(travel: Travel) -> (Open, Sliced)
    ensures { (past : Past) → Arrives (cells travel) past travel result.1 (record { past = past; job = job_of result.0 }) }
{
    if travel.is_over() {
        (Open::Idle, Sliced::Ended(finished(travel, TravelEnd::All)))
    } else {
        (Open::Border(travel), Sliced::Border)
    }
}

/// A posted cell came to its end, in `n` steps: it becomes a node. The room for it was made before.
fn settle_cell<L: Ledger>(
    tree: &mut HistoryTree,
    runner: &Runner<L>,
    program: Program,
    n: u64,
) -> (Open, Sliced)
    requires { HasCome tree.old runner.now (Work.Cell program) n }
    ensures step { SettlesFrom tree.old runner.now (Work.Cell program) n result.1 (state_of tree.new result.0) }
    ensures kept { Kept tree.new runner.now result.0 }
{
    let parent = tree.position;
    let content = EndedCell { program, steps: n };
    let number = tree.cells.add(Node { parent, content });
    tree.cells.set_favourite(parent, number);
    tree.position = number;
    (Open::Idle, Sliced::Ended(Outcome::Ran(number, n)))
}

/// A cell on the way up came to the end of its inverse: its names are zero, and are taken back.
fn settle_up<L: Ledger>(
    tree: &mut HistoryTree,
    runner: &mut Runner<L>,
    travel: Travel,
    n: u64,
) -> (Open, Sliced)
    requires way { next_way travel ≡ Up }
    requires come { HasCome tree.old runner.old (Work.Move travel) n }
    ensures step { SettlesFrom tree.old runner.old (Work.Move travel) n result.1 (state_of tree.new result.0) }
    ensures kept { Kept tree.new runner.new result.0 }
    ensures counts { KeepsCounts runner.old runner.new }
    ensures cursor { runner.new.cursor ≡ runner.old.cursor }
{
    runner.leave(&tree.cells.content(tree.position).program);
    tree.position = tree.cells.parent(tree.position);
    arrive(travel.stepped())
}

/// A cell on the way down came to its end: it is the favourite of the one above it.
fn settle_down<L: Ledger>(
    tree: &mut HistoryTree,
    runner: &Runner<L>,
    travel: Travel,
    n: u64,
) -> (Open, Sliced)
    requires way { next_way travel ≡ Down }
    requires come { HasCome tree.old runner.now (Work.Move travel) n }
    ensures step { SettlesFrom tree.old runner.now (Work.Move travel) n result.1 (state_of tree.new result.0) }
    ensures kept { Kept tree.new runner.now result.0 }
{
    let child = below(tree, travel);
    tree.cells.set_favourite(tree.position, child);
    tree.position = child;
    arrive(travel.stepped())
}

/// A cell came to its end, in `n` steps.
fn settle<L: Ledger>(
    tree: &mut HistoryTree,
    runner: &mut Runner<L>,
    work: Work,
    n: u64,
) -> (Open, Sliced)
    requires { HasCome tree.old runner.old work n }
    ensures step { SettlesFrom tree.old runner.old work n result.1 (state_of tree.new result.0) }
    ensures kept { Kept tree.new runner.new result.0 }
    ensures counts { KeepsCounts runner.old runner.new }
    ensures cursor { runner.new.cursor ≡ runner.old.cursor }
{
    match work {
        Work::Cell(program) => settle_cell(tree, runner, program, n),
        Work::Move(travel) => match travel.way() {
            Way::Up => settle_up(tree, runner, travel, n),
            Way::Down => settle_down(tree, runner, travel, n),
        },
    }
}

/// A cell came to its end: the job is taken out, and its cell settles.
fn settle_job<L: Ledger>(tree: &mut HistoryTree, runner: &mut Runner<L>, job: &mut Open) -> Sliced
    requires { HasComeAt tree.old runner.old job.old }
    ensures step { SettlesAt tree.old runner.old job.old result (state_of tree.new job.new) }
    ensures kept { Kept tree.new runner.new job.new }
    ensures counts { KeepsCounts runner.old runner.new }
    ensures cursor { runner.new.cursor ≡ runner.old.cursor }
{
    let Open::Inside(entered) = mem::replace(job, Open::Idle) else {
        unreachable!()
    };
    let Entered { work, count, .. } = entered;
    let (left, told) = settle(tree, runner, work, count);
    *job = left;
    told
}

/// Goes on for `m` steps, or to the stop of the cell's code. The answer is none where the cell has come to its end, which is not settled yet.
fn go_on<L: Ledger>(
    tree: &HistoryTree,
    runner: &mut Runner<L>,
    entered: &mut Entered,
    m: u64,
) -> Option<Sliced>
    requires kept { Kept tree.now runner.old (Open.Inside entered.old) }
    requires onward { entered.old.heading ≡ Heading.GoesOn }
    ensures step { IfSome result
        (λ told. Goes (past_of tree.now) (work_of entered.old.work) entered.old.count m told (state_of tree.now (left_by told entered.new))) }
    ensures kept { IfSome result (λ told. Kept tree.now runner.new (left_by told entered.new)) }
    ensures end { IfNone result (ComesToEnd tree.now runner.new entered.old m entered.new) }
    ensures written { WritesOn (past_of tree.now) (work_of entered.old.work) entered.old.count m (writes_of runner.old) (writes_of runner.new) }
    ensures counted { StepsOn (past_of tree.now) (work_of entered.old.work) entered.old.count m (steps_of runner.old) (steps_of runner.new) }
    ensures came { IfNone result (CameInside tree.now entered.old.work m runner.old runner.new) }
    ensures not_ended { IfSome result (λ told. ends_well told ≡ false) }
{
    match runner.run(program_of(tree, &entered.work), m) {
        Progress::Went => {
            entered.count = runner.count();
            Some(Sliced::Going)
        }
        Progress::Ended(n) => {
            entered.count = n;
            None
        }
        Progress::Stopped(j, fault) => {
            entered.count = j;
            let why = Why::Faulted(fault, j);
            Some(turn_back(tree, runner, entered, why, 0))
        }
    }
}

/// A slice of up to `m` steps inside a cell. The answer is none where the cell has come to its end, which is not settled yet.
fn slice_inside<L: Ledger>(
    tree: &HistoryTree,
    runner: &mut Runner<L>,
    entered: &mut Entered,
    m: u64,
    asked: bool,
) -> Option<Sliced>
    requires { Kept tree.now runner.old (Open.Inside entered.old) }
    ensures step { IfSome result (λ told. IsSlice (state_of tree.now (Open.Inside entered.old)) m asked told (state_of tree.now (left_by told entered.new))) }
    ensures kept { IfSome result (λ told. Kept tree.now runner.new (left_by told entered.new)) }
    ensures end { IfNone result (ComesToEnd tree.now runner.new entered.old m entered.new) }
    // No other slice comes there.
    ensures onward { IfNone result (entered.old.heading ≡ Heading.GoesOn) }
    ensures unasked { IfNone result (asked ≡ false) }
    ensures written { WritesOnSlice (state_of tree.now (Open.Inside entered.old)) m asked (writes_of runner.old) (writes_of runner.new) }
    ensures counted { StepsOnSlice (state_of tree.now (Open.Inside entered.old)) m asked (steps_of runner.old) (steps_of runner.new) }
    ensures came { IfNone result (CameInside tree.now entered.old.work m runner.old runner.new) }
    ensures not_ended { IfSome result (λ told. ends_well told ≡ false) }
    ensures came_back { CameBack tree.now entered.old.work entered.old.heading m runner.old runner.new }
{
    match entered.heading {
        Heading::GoesBack(why) => Some(go_back(tree, runner, entered, why, m)),
        Heading::GoesOn if asked => {
            let why = Why::WasAsked(entered.count);
            Some(turn_back(tree, runner, entered, why, m))
        }
        Heading::GoesOn => go_on(tree, runner, entered, m),
    }
}

/// A slice of up to `m` steps of the open job. The job is moved at the end of its cell alone.
pub fn slice_job<L: Ledger>(
    tree: &mut HistoryTree,
    runner: &mut Runner<L>,
    job: &mut Open,
    m: u64,
    asked: bool,
) -> Sliced
    requires { Kept tree.old runner.old job.old }
    ensures slice { IsSlice (state_of tree.old job.old) m asked result (state_of tree.new job.new) }
    ensures kept { Kept tree.new runner.new job.new }
    ensures written { WritesOnSlice (state_of tree.old job.old) m asked (writes_of runner.old) (writes_of runner.new) }
    ensures counted { StepsOnSlice (state_of tree.old job.old) m asked (steps_of runner.old) (steps_of runner.new) }
    ensures came { CameAt tree.old job.old m result runner.old runner.new }
{
    let Open::Inside(entered) = job else {
        return Sliced::Nothing;
    };
    match slice_inside(tree, runner, entered, m, asked) {
        Some(Sliced::Ended(outcome)) => {
            *job = Open::Idle;
            Sliced::Ended(outcome)
        }
        Some(told) => told,
        None => settle_job(tree, runner, job),
    }
}
