//! The names in sight with their values.
ghost use Rattle.std.specs.Prelude.{◌≡◌, ◌≤◌, ◌<◌, List, length, reverse, slice_get, Some, IfSome, IfNone, IsSome, IfOk, OnOk, ◌++◌, map, string_bytes};
ghost use Rattle.janus_meaning.specs.Syntax.{Name};
ghost use Rattle.janus_meaning.specs.World.{size_of, listed};
ghost use Rattle.janus_slots.specs.Slots.{slot as slot_name, slot_in};
ghost use Rattle.janus_places.specs.Table.{places_in, slot_of};
ghost use Rattle.kernel_runner.specs.Values.{shown};

use crate::level::Level;
use crate::walk::Walk;
use janus_machine::ValueView;
use janus_slots::Names;
use janus_places::Table;
use std::alloc::{AllocError, Global};
use std::sync::ledger::Ledger;

/// The names that are in sight in a whole code.
#[derive(Clone, Copy)]
pub(crate) enum Base<'a> {
    /// The declared names, the oldest first.
    Declared(&'a Names),
    /// The parameters of a procedure, the first one first: it stands on top.
    Parameters(&'a [String]),
}

impl<'a> Base<'a> {
    ghost use Rattle.steps_walk.specs.Sights.{base_of};

    /// How many these are.
    fn len(self) -> usize
        ensures { result ≡ length (base_of self.entry) }
    {
        match self {
            Base::Declared(names) => names.len(),
            Base::Parameters(names) => names.len(),
        }
    }

    /// The slot of the newest of a name.
    fn slot(self, name: &str) -> Option<usize>
        ensures { slot_of result ≡ slot_in (base_of self.entry) name.now }
    {
        match self {
            Base::Declared(names) => declared_slot(names, name),
            Base::Parameters(names) => parameter_slot(names, name),
        }
    }

    /// Adds these names, the newest first; the only error is want of memory.
    fn add(self, all: &mut Vec<&'a str>) -> Result<(), AllocError>
        ensures { OnOk result (map (λ name. name.now) all.new.items ≡ map (λ name. name.now) all.old.items ++ base_of self.entry) }
    {
        match self {
            Base::Declared(names) => add_declared(all, names),
            Base::Parameters(names) => add_parameters(all, names),
        }
    }
}

/// The slot of a declared name: its number.
#[tactic(auto, using(crate::proofs::Sights::of_number))]
fn declared_slot(names: &Names, name: &str) -> Option<usize>
    ensures { slot_of result ≡ slot_in (reverse names.now) name.now }
{
    names.one_number_law();
    names.number(name)
}

/// The slot of a parameter: how many stand behind it.
#[tactic(auto, using(crate::proofs::Sights::found_none))]
fn parameter_slot(names: &[String], name: &str) -> Option<usize>
    ensures { slot_of result ≡ slot_in (map string_bytes names.now) name.now }
{
    let mut i = 0;
    while i < names.len() {
        if names[i].as_str() == name {
            return Some(names.len() - 1 - i);
        }
        i += 1;
    }
    None
}

/// The names that are in sight where a walk stands.
#[derive(Clone, Copy)]
pub struct Sight<'a> {
    pub(crate) base: Base<'a>,
    /// The places of the code, with the locals that are open at each.
    pub(crate) table: &'a Table,
    pub(crate) at: usize,
    ghost within: { at < places_in table.now },
}

impl<'a> Sight<'a> {
    ghost use Rattle.steps_walk.specs.Sights.{AreInSight};

    /// The slot of the newest of this name, which hides the others.
    #[tactic(auto, using(crate::proofs::InSight::local, crate::proofs::InSight::few_locals, crate::proofs::InSight::under_locals))]
    pub fn slot(&self, name: &str) -> Option<usize>
        ensures { (g : List Name) → AreInSight self.now g → slot_of result ≡ slot_in g name.now }
    {
        let Some(below) = self.table.local(self.at, name) else {
            return self.base.slot(name);
        };
        let base = self.base.len();
        if below > usize::MAX - base {
            return None;
        }
        Some(base + below)
    }

    /// The names in sight, the newest first; the only error is want of memory.
    pub fn names(&self, alloc: Global) -> Result<Vec<&str>, AllocError>
        ensures { IfOk result (λ names. (g : List Name) → AreInSight self.now g → map (λ name. name.now) names.items ≡ g) }
    {
        let mut names = self.table.locals(alloc, self.at)?;
        self.base.add(&mut names)?;
        Ok(names)
    }
}

/// Adds declared names, the newest first; the only error is want of memory.
#[tactic(auto, using(crate::proofs::Naming::next_declared, crate::proofs::Naming::all_declared, crate::proofs::Naming::whole_declared))]
fn add_declared<'a>(all: &mut Vec<&'a str>, names: &'a Names) -> Result<(), AllocError>
    ensures { OnOk result (map (λ name. name.now) all.new.items ≡ map (λ name. name.now) all.old.items ++ reverse names.now) }
{
    for i in 0..names.len() {
        all.push(names.name(names.len() - 1 - i))?;
    }
    Ok(())
}

/// Adds the names of parameters; the only error is want of memory.
#[tactic(auto, using(crate::proofs::Naming::next_parameter, crate::proofs::Naming::all_parameters))]
fn add_parameters<'a>(all: &mut Vec<&'a str>, names: &'a [String]) -> Result<(), AllocError>
    ensures { OnOk result (map (λ name. name.now) all.new.items ≡ map (λ name. name.now) all.old.items ++ map string_bytes names.now) }
{
    for i in 0..names.len() {
        all.push(names[i].as_str())?;
    }
    Ok(())
}

impl<L: Ledger> Walk<L> {
    ghost use Rattle.steps_walk.specs.Walk.{slots_in, calls_in, IsWalking};
    ghost use Rattle.steps_walk.specs.Standing.{IsHere, IsCodeAt, IsTableAt, IsMetHere};
    ghost use Rattle.janus_places.specs.declared.table.Table.{Table as TheTable};
    ghost use Rattle.steps_walk.specs.Sights.{IsSightAt, IsSightHere, base_of, base_at};

    /// The names in sight at the innermost level, whose values the walk lends.
    pub fn sight(&self, level: &Level) -> Option<Sight<'_>>
        requires here { IsHere self.now level.now }
        requires code { IsCodeAt self.now (calls_in self.now) level.now.body }
        ensures is { IfSome result (IsSightAt self.now level.now) }
        ensures met { IsWalking self.now → IsSome result }
    {
        let table = self.table(level)?;
        if level.at >= table.len() {
            return None;
        }
        let base = self.base(level.body)?;
        Some(Sight {
            base,
            table,
            at: level.at,
        })
    }

    /// The names in sight at the innermost level. None if the body there wasn't met.
    pub fn sight_here(&self) -> Option<Sight<'_>>
        ensures is { IfSome result (IsSightHere self.now) }
        ensures met { IsWalking self.now → IsMetHere self.now → IsSome result }
    {
        let level = self.level(self.open_calls())?;
        let sight = self.sight(&level)?;
        Some(sight)
    }

    /// The names that are in sight in a whole code.
    fn base(&self, body: Option<usize>) -> Option<Base<'_>>
        ensures some { IfSome result (λ base. base_of base ≡ base_at self.now body) }
        ensures met { (t : TheTable) → IsTableAt self.now body t → IsSome result }
    {
        match body {
            None => Some(Base::Declared(self.open.runner.counted.store.texts())),
            Some(k) => match self.met.get(k) {
                Some(body) => Some(Base::Parameters(&body.parameters)),
                None => None,
            },
        }
    }

    /// The value in a slot of the innermost frame, if it has so many.
    #[inline(always)]
    pub fn value(&self, slot: usize) -> Option<ValueView<'_>>
        ensures some { IfSome result (λ value. slice_get (listed (slots_in self.now)) slot ≡ Some (slot_name slot, shown value)) }
        ensures none { IfNone result (size_of (slots_in self.now) ≤ slot) }
    {
        if slot >= self.open.runner.counted.store.sight_len() {
            return None;
        }
        Some(self.open.runner.counted.store.sight_entry(slot))
    }
}
