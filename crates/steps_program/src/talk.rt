//! Commands that are obeyed, and what there is to tell then.
ghost use Rattle.std.specs.Prelude.{◌≡◌, true};
ghost use Rattle.steps_walk.specs.Values.{IsValueHere};
ghost use Rattle.steps_walk.specs.Walk.{IsWalking, KeepsMet, calls_in};
ghost use Rattle.steps_program.specs.declared.going.Goal.TheVariants.{Fewer};
ghost use Rattle.steps_program.specs.Counted.{GoesOn, ComesBack};
ghost use Rattle.steps_program.specs.Kept.{value_in};
ghost use Rattle.steps_program.specs.Obeyed.{Obeys, IsLed, IsLedUntil, IsLedByChange, watched as watched_of};

use crate::command::Command;
use crate::going::{Came, Goal, go_back, go_on, keep_value, steps_back, steps_on};
use crate::kept::Kept;
use crate::source::Source;
use janus_syntax::SyntaxFault;
use std::alloc::Global;
use std::sync::ledger::Ledger;
use steps_walk::{Walk, parse_exp};

/// What there is to tell behind a command.
#[derive(Clone, Copy)]
pub(crate) enum Reply {
    /// Where the walk has come.
    Came(Came),
    /// Where it has come that has sought a place; it may have found none.
    Sought(Came),
    /// Why the text of an expression is refused.
    Refused(SyntaxFault),
    /// That nobody knows the command.
    Unknown,
    /// That there is no memory to obey it.
    NoMemory,
    /// That the name is not in sight whose value was to be watched.
    NotInSight,
    /// Where the walk has come that watched a value: the call is left in which it began.
    CallLeft,
    /// The names in sight with their values.
    Names,
    /// The next step, with its place.
    Place,
    /// The open calls.
    Calls,
    /// The lines around the next step.
    Lines,
    /// How many steps are taken.
    Count,
    Nothing,
}

/// Meets the bodies in which the open calls run, as far as there is memory for them.
fn meet<L: Ledger>(alloc: Global, walk: &mut Walk<L>)
    requires { IsWalking walk.old }
    ensures { KeepsMet walk.old walk.new }
{
    let _ = walk.meet_calls(alloc);
}

/// Goes on or back until an expression holds.
fn until<L: Ledger>(
    alloc: Global,
    walk: &mut Walk<L>,
    sources: &[Source],
    text: &str,
    is_onward: bool,
) -> Reply
    requires { IsWalking walk.old }
    ensures walks { IsWalking walk.new }
    ensures led { IsLedUntil sources.now is_onward text.now walk.old walk.new result }
{
    match parse_exp(alloc, text) {
        Ok(exp) => Reply::Sought(go(alloc, walk, sources, Goal::Holds(&exp), is_onward)),
        Err(fault) => Reply::Refused(fault),
    }
}

/// Goes on or back until the value of a name changes.
fn watch<L: Ledger>(
    alloc: Global,
    walk: &mut Walk<L>,
    sources: &[Source],
    name: &str,
    is_onward: bool,
) -> Reply
    requires { IsWalking walk.old }
    ensures walks { IsWalking walk.new }
    ensures led { IsLedByChange sources.now is_onward name.entry walk.old walk.new result }
{
    match keep_value(alloc, walk, name) {
        Ok(old) => watch_from(alloc, walk, sources, name, old, is_onward),
        Err(_) => Reply::NoMemory,
    }
}

/// Goes on or back until the value of a name is another one than this, which it has where the walk stands.
fn watch_from<L: Ledger>(
    alloc: Global,
    walk: &mut Walk<L>,
    sources: &[Source],
    name: &str,
    old: Kept,
    is_onward: bool,
) -> Reply
    requires walking { IsWalking walk.old }
    requires value { IsValueHere walk.old name.now (value_in old) }
    ensures walks { IsWalking walk.new }
    ensures led { IsLedByChange sources.now is_onward name.entry walk.old walk.new result }
{
    if old.is_absent() {
        return Reply::NotInSight;
    }
    let depth = walk.open_calls();
    let came = go(
        alloc,
        walk,
        sources,
        Goal::Changes(name, depth, old),
        is_onward,
    );
    watched(came, walk.open_calls() < depth)
}

/// What there is to tell where a walk has come that watched a value, by whether the call is left in which it began.
fn watched(came: Came, is_left: bool) -> Reply
    ensures { result ≡ watched_of came is_left }
{
    match came {
        Came::There if is_left => Reply::CallLeft,
        _ => Reply::Sought(came),
    }
}

/// Takes steps on or back by a command; the bodies are met where they lead.
#[tactic(auto, using(crate::proofs::Obeying::led))]
fn go<L: Ledger>(
    alloc: Global,
    walk: &mut Walk<L>,
    sources: &[Source],
    goal: Goal<'_>,
    is_onward: bool,
) -> Came
    requires { IsWalking walk.old }
    ensures walks { IsWalking walk.new }
    ensures led { IsLed sources.now is_onward goal.entry walk.old walk.new result }
{
    if is_onward {
        let came = go_on(alloc, walk, sources, &goal);
        meet(alloc, walk);
        came
    } else {
        let came = go_back(alloc, walk, sources, &goal);
        meet(alloc, walk);
        came
    }
}

/// Takes so many steps on; the bodies are met where they lead.
#[tactic(auto, using(crate::proofs::Obeying::led_on))]
fn step<L: Ledger>(alloc: Global, walk: &mut Walk<L>, n: u64) -> Came
    requires { IsWalking walk.old }
    ensures walks { IsWalking walk.new }
    ensures goes { GoesOn n walk.old walk.new result }
{
    let came = steps_on(walk, n);
    meet(alloc, walk);
    came
}

/// Takes so many steps back; the bodies are met where they lead.
#[tactic(auto, using(crate::proofs::Obeying::come_back))]
fn step_back<L: Ledger>(alloc: Global, walk: &mut Walk<L>, n: u64) -> Came
    requires { IsWalking walk.old }
    ensures walks { IsWalking walk.new }
    ensures goes { ComesBack n walk.old walk.new result }
{
    let came = steps_back(walk, n);
    meet(alloc, walk);
    came
}

/// Goes on until the innermost call is left; outside of calls to the end.
fn finish<L: Ledger>(alloc: Global, walk: &mut Walk<L>, sources: &[Source]) -> Came
    requires { IsWalking walk.old }
    ensures walks { IsWalking walk.new }
    ensures led { IsLed sources.now true (Fewer (calls_in walk.old)) walk.old walk.new result }
{
    let goal = Goal::Fewer(walk.open_calls());
    go(alloc, walk, sources, goal, true)
}

/// Does what a command asks of the walk, and answers what there is to tell then.
pub(crate) fn obey<L: Ledger>(
    alloc: Global,
    walk: &mut Walk<L>,
    sources: &[Source],
    command: Command<'_>,
) -> Reply
    requires { IsWalking walk.old }
    ensures walks { IsWalking walk.new }
    ensures obeys { Obeys sources.now command.entry walk.old walk.new result }
{
    match command {
        Command::Step(n) => Reply::Came(step(alloc, walk, n)),
        Command::Back(n) => Reply::Came(step_back(alloc, walk, n)),
        Command::Next => {
            let goal = Goal::Next(walk.open_calls());
            Reply::Came(go(alloc, walk, sources, goal, true))
        }
        Command::Finish => Reply::Came(finish(alloc, walk, sources)),
        Command::To(line) => Reply::Sought(go(alloc, walk, sources, Goal::Line(line), true)),
        Command::BackTo(line) => Reply::Sought(go(alloc, walk, sources, Goal::Line(line), false)),
        Command::ToFault | Command::ToEnd => Reply::Came(step(alloc, walk, u64::MAX)),
        Command::ToStart => Reply::Came(step_back(alloc, walk, u64::MAX)),
        Command::Until(text) => until(alloc, walk, sources, text, true),
        Command::BackUntil(text) => until(alloc, walk, sources, text, false),
        Command::Watch(name) => watch(alloc, walk, sources, name, true),
        Command::BackWatch(name) => watch(alloc, walk, sources, name, false),
        Command::Show => Reply::Names,
        Command::Where => Reply::Place,
        Command::Calls => Reply::Calls,
        Command::List => Reply::Lines,
        Command::Count => Reply::Count,
        Command::Nothing | Command::Quit => Reply::Nothing,
        Command::Unknown => Reply::Unknown,
    }
}
