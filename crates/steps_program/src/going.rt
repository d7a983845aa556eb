//! How far a command goes.
ghost use Rattle.std.specs.Prelude.{◌≡◌, IfSome, IfNone, IfOk, IfErr, false};
ghost use Rattle.steps_walk.specs.Walk.{IsWalking, Moves, KeepsMet};
ghost use Rattle.steps_walk.specs.Standing.{IsMetHere};
ghost use Rattle.steps_walk.specs.Values.{IsValueHere};
ghost use Rattle.steps_program.specs.Counted.{GoesOn, GoesBack, ComesBack, came_by as came_by_told, came_back as came_back_to};
ghost use Rattle.steps_program.specs.declared.going.Goal.TheVariants.{Holds};
ghost use Rattle.steps_program.specs.Going.{IsSeenFalse, IsSeenTrue, IsThere, TellsOnLine, TellsChange, Arrives, TakesOne, TakesLast, GoesTo, GoesBackTo};
ghost use Rattle.steps_program.specs.Kept.{value_in};
ghost use Rattle.steps_program.specs.Places.{line_at as line_at_span, source_of as source_of_node};

use crate::kept::Kept;
use crate::output::place_of;
use crate::source::{Source, source_of};
use cells_program::Fault;
use std::alloc::{AllocError, Global};
use std::sync::ledger::Ledger;
use steps_walk::{Exp, Level, Progress, Spot, Walk, is_holding, is_true, seen_number, value_of};

/// Where a command has led.
#[derive(Clone, Copy)]
pub(crate) enum Came {
    /// To where it goes.
    There,
    /// To the end of the cell.
    End,
    /// To its start.
    Start,
    /// To a fault.
    Fault(Fault),
    /// There is no memory to go on.
    Memory,
}

/// How far a command goes.
#[derive(Drop)]
pub(crate) enum Goal<'a> {
    /// To the next statement or test with at most so many open calls.
    Next(usize),
    /// Until fewer calls are open.
    Fewer(usize),
    /// To this line of the file.
    Line(u64),
    /// Until an expression over the names in sight holds.
    Holds(&'a Exp),
    /// Until the value of a name, where so many calls are open, is another one than this, or fewer are open.
    Changes(&'a str, usize, Kept),
}

/// The value of a name in sight where the walk stands, kept; the only error is want of memory, for it or for the body there.
pub(crate) fn keep_value<L: Ledger>(
    alloc: Global,
    walk: &Walk<L>,
    name: &str,
) -> Result<Kept, AllocError>
    ensures { IfOk result (λ kept. IsValueHere walk.now name.now (value_in kept)) }
{
    let Some(sight) = walk.sight_here() else {
        return Err(AllocError);
    };
    let kept = Kept::of(alloc, value_of(walk, &sight, name))?;
    Ok(kept)
}

/// Whether so many calls are open, and the value of a name there is another one than was kept; or the call is left in which it was kept.
fn is_changed<L: Ledger>(walk: &Walk<L>, name: &str, depth: usize, old: &Kept) -> bool
    requires walking { IsWalking walk.now }
    requires met { IsMetHere walk.now }
    ensures { TellsChange name.now depth (value_in old.now) walk.now result }
{
    let Some(sight) = walk.sight_here() else {
        unreachable!()
    };
    let is_old = old.is(value_of(walk, &sight, name));
    let calls = walk.open_calls();
    if calls < depth {
        return true;
    }
    if calls != depth {
        return false;
    }
    !is_old
}

/// Whether a statement or one of its tests comes next, on this line of the file.
fn is_on_line<L: Ledger>(walk: &Walk<L>, sources: &[Source], line: u64) -> bool
    requires walking { IsWalking walk.now }
    requires met { IsMetHere walk.now }
    ensures { TellsOnLine sources.now line walk.now result }
{
    let Some((level, spot)) = walk.stand() else {
        unreachable!()
    };
    let here = line_at(sources, &level, spot);
    if !spot.is_stop(level.inverse) {
        return false;
    }
    here == Some(line as usize)
}

/// The line of the file on which a spot stands.
fn line_at(sources: &[Source], level: &Level, spot: Spot) -> Option<usize>
    ensures { result ≡ line_at_span (source_of_node sources.now level.now.node) spot.span }
{
    let source = source_of(sources, level.node)?;
    let place = place_of(source, spot)?;
    Some(place.line)
}

/// Whether the walk stands where a command goes.
fn is_there<L: Ledger>(walk: &Walk<L>, sources: &[Source], goal: &Goal<'_>) -> bool
    requires walking { IsWalking walk.now }
    requires met { IsMetHere walk.now }
    ensures { IsThere sources.now goal.now walk.now result }
{
    match goal {
        Goal::Next(depth) => walk.open_calls() <= *depth && walk.is_at_stop(),
        Goal::Fewer(depth) => walk.open_calls() < *depth,
        Goal::Line(line) => is_on_line(walk, sources, *line),
        Goal::Holds(exp) => is_holding(walk, *exp),
        Goal::Changes(name, depth, old) => is_changed(walk, *name, *depth, old),
    }
}

/// Where the walk has come, if the command goes no further; the body in which it stands is met.
fn arrived<L: Ledger>(
    alloc: Global,
    walk: &mut Walk<L>,
    sources: &[Source],
    goal: &Goal<'_>,
) -> Option<Came>
    requires { IsWalking walk.old }
    ensures kept { KeepsMet walk.old walk.new }
    ensures some { IfSome result (Arrives sources.now goal.now walk.new) }
    ensures none { IfNone result (IsThere sources.now goal.now walk.new false) }
{
    if walk.meet_here(alloc).is_err() {
        return Some(Came::Memory);
    }
    if is_there(walk, sources, goal) {
        return Some(Came::There);
    }
    None
}

/// Takes a step on, and tells where that has led, if the command goes no further.
#[tactic(auto, using(crate::proofs::Obeying::led))]
fn step_on<L: Ledger>(
    alloc: Global,
    walk: &mut Walk<L>,
    sources: &[Source],
    goal: &Goal<'_>,
) -> Option<Came>
    requires { IsWalking walk.old }
    ensures walks { IsWalking walk.new }
    ensures moves { Moves walk.old walk.new }
    ensures some { IfSome result (TakesLast sources.now goal.now walk.old walk.new) }
    ensures none { IfNone result (TakesOne walk.old walk.new × IsThere sources.now goal.now walk.new false) }
{
    match walk.on(1) {
        Progress::Ended(_) => Some(Came::End),
        Progress::Stopped(_, fault) => Some(Came::Fault(fault)),
        Progress::Went => arrived(alloc, walk, sources, goal),
    }
}

/// Takes steps on until the walk stands where a command goes, one at least.
pub(crate) fn go_on<L: Ledger>(
    alloc: Global,
    walk: &mut Walk<L>,
    sources: &[Source],
    goal: &Goal<'_>,
) -> Came
    requires { IsWalking walk.old }
    ensures walks { IsWalking walk.new }
    ensures moves { Moves walk.old walk.new }
    ensures goes { GoesTo sources.now goal.now walk.old walk.new result }
{
    match goal {
        Goal::Holds(exp) => seek(alloc, walk, sources, *exp),
        Goal::Next(_) | Goal::Fewer(_) | Goal::Line(_) | Goal::Changes(_, _, _) => {
            look_on(alloc, walk, sources, goal)
        }
    }
}

/// Takes steps on, and looks behind each whether the walk stands where a command goes.
fn look_on<L: Ledger>(
    alloc: Global,
    walk: &mut Walk<L>,
    sources: &[Source],
    goal: &Goal<'_>,
) -> Came
    requires { IsWalking walk.old }
    ensures walks { IsWalking walk.new }
    ensures moves { Moves walk.old walk.new }
    ensures goes { GoesTo sources.now goal.now walk.old walk.new result }
{
    loop {
        if let Some(came) = step_on(alloc, walk, sources, goal) {
            return came;
        }
    }
}

/// Looks whether an expression holds where the walk stands: the innermost level, if it doesn't, else where the command has come. The body there is met.
fn look<L: Ledger>(alloc: Global, walk: &mut Walk<L>, exp: &Exp) -> Result<Level, Came>
    requires { IsWalking walk.old }
    ensures kept { KeepsMet walk.old walk.new }
    ensures ok { IfOk result (IsSeenFalse exp.now walk.new) }
    ensures err { IfErr result (IsSeenTrue exp.now walk.new) }
{
    if walk.meet_here(alloc).is_err() {
        return Err(Came::Memory);
    }
    let (level, number) = seen_number(walk, exp);
    if is_true(number) {
        return Err(Came::There);
    }
    Ok(level)
}

/// Takes a step on, and looks whether an expression holds then.
fn step_first<L: Ledger>(
    alloc: Global,
    walk: &mut Walk<L>,
    sources: &[Source],
    exp: &Exp,
) -> Result<Level, Came>
    requires { IsWalking walk.old }
    ensures walks { IsWalking walk.new }
    ensures moves { Moves walk.old walk.new }
    ensures ok { IfOk result (λ level. TakesOne walk.old walk.new × IsSeenFalse exp.now walk.new level) }
    ensures err { IfErr result (TakesLast sources.now (Holds exp.entry) walk.old walk.new) }
{
    match walk.on(1) {
        Progress::Ended(_) => Err(Came::End),
        Progress::Stopped(_, fault) => Err(Came::Fault(fault)),
        Progress::Went => look(alloc, walk, exp),
    }
}

/// Takes a step on from a level at which an expression was seen not to hold, and looks whether it holds then, unless it is known to be as it was.
fn step_further<L: Ledger>(
    alloc: Global,
    walk: &mut Walk<L>,
    sources: &[Source],
    exp: &Exp,
    level: &Level,
) -> Result<Level, Came>
    requires walking { IsWalking walk.old }
    requires seen { IsSeenFalse exp.now walk.old level.now }
    ensures walks { IsWalking walk.new }
    ensures moves { Moves walk.old walk.new }
    ensures ok { IfOk result (λ level. TakesOne walk.old walk.new × IsSeenFalse exp.now walk.new level) }
    ensures err { IfErr result (TakesLast sources.now (Holds exp.entry) walk.old walk.new) }
{
    let (told, alike) = walk.on_from(level);
    match told {
        Progress::Ended(_) => Err(Came::End),
        Progress::Stopped(_, fault) => Err(Came::Fault(fault)),
        Progress::Went => match alike {
            Some(level) => Ok(level),
            None => look(alloc, walk, exp),
        },
    }
}

/// Takes steps on until an expression over the names in sight holds, one at least.
fn seek<L: Ledger>(alloc: Global, walk: &mut Walk<L>, sources: &[Source], exp: &Exp) -> Came
    requires { IsWalking walk.old }
    ensures walks { IsWalking walk.new }
    ensures moves { Moves walk.old walk.new }
    ensures goes { GoesTo sources.now (Holds exp.entry) walk.old walk.new result }
{
    let mut level = match step_first(alloc, walk, sources, exp) {
        Ok(level) => level,
        Err(came) => return came,
    };
    loop {
        match step_further(alloc, walk, sources, exp, &level) {
            Ok(next) => level = next,
            Err(came) => return came,
        }
    }
}

/// Takes steps back until the walk stands where a command goes, one at least.
pub(crate) fn go_back<L: Ledger>(
    alloc: Global,
    walk: &mut Walk<L>,
    sources: &[Source],
    goal: &Goal<'_>,
) -> Came
    requires { IsWalking walk.old }
    ensures walks { IsWalking walk.new }
    ensures moves { Moves walk.old walk.new }
    ensures goes { GoesBackTo sources.now goal.now walk.old walk.new result }
{
    for _ in 0..walk.count() {
        walk.back(1);
        if let Some(came) = arrived(alloc, walk, sources, goal) {
            return came;
        }
    }
    Came::Start
}

/// Where steps on have led, by what they told.
fn came_by(told: Progress) -> Came
    ensures { result ≡ came_by_told told }
{
    match told {
        Progress::Ended(_) => Came::End,
        Progress::Stopped(_, fault) => Came::Fault(fault),
        Progress::Went => Came::There,
    }
}

/// Takes so many steps on.
pub(crate) fn steps_on<L: Ledger>(walk: &mut Walk<L>, n: u64) -> Came
    requires { IsWalking walk.old }
    ensures walks { IsWalking walk.new }
    ensures goes { GoesOn n walk.old walk.new result }
{
    let told = walk.on(n);
    came_by(told)
}

/// Takes so many steps back.
pub(crate) fn steps_back<L: Ledger>(walk: &mut Walk<L>, n: u64) -> Came
    requires { IsWalking walk.old }
    ensures walks { IsWalking walk.new }
    ensures goes { ComesBack n walk.old walk.new result }
{
    walk.back(n);
    came_back(walk.count())
}

/// Where steps back have led, by how many steps are left.
fn came_back(count: u64) -> Came
    ensures { result ≡ came_back_to count }
{
    if count == 0 { Came::Start } else { Came::There }
}
