//! Names don't matter: Janus with slots in place of names.
//!
//! Its definitions, in specs/, replace each name of a variable by its slot, which is how many names stand below it in the store in
//! sight, and each name of a procedure by its number in a table. Its laws are the contracts of functions that do nothing: a block with
//! slots takes the same steps as the block with names, through the same places, with the same values, ends after as many steps, and
//! stops for the same faults. So what runs slots alone, and never compares a name, runs Janus as it is meant.
//!
//! Its one type is `Names`, a table of names, each with its number: those of procedures, and the texts of declared names. A number stands for
//! one name and a name has one number at most, and a name that has a number keeps it for as long as it is there: names are added behind the others,
//! and only the newest ones are taken away.
#![tactic(auto)]

ghost use Rattle.janus_slots.specs.Law.{StepsAreTheSame, RunsAreTheSame, SlotsStay};

mod names;

pub use crate::names::Names;

/// Law: with slots in place of names, and the numbers of a table in which each procedure is listed, the machine on places takes the
/// same steps.
pub fn steps_are_the_same_law()
    ensures { StepsAreTheSame }
{}

/// Law: a block ends, stops and shows what its slots do, after as many steps; and the names of the store give names back to what
/// the slots end in, and to the declared part of what they show.
pub fn runs_are_the_same_law()
    ensures { RunsAreTheSame }
{}

/// Law: the inverse of a block with slots is the block's inverse with slots, and a store's names give the store back from its slots.
pub fn slots_stay_law()
    ensures { SlotsStay }
{}
