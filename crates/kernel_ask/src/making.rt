//! The values of user expressions after a job that has ended, made one by one: whoever makes them may stop between two.
ghost use Rattle.std.specs.Prelude.{◌≡◌, ◌<◌, ◌≤◌, ◌-◌, [], true, false, List, IfOk, vec_len, vec_capacity, length};
ghost use Rattle.kernel_text.specs.DeclaredNames.{KnowsNamesOf};
ghost use Rattle.kernel_text.specs.State.{Idle, Past, here};
ghost use Rattle.kernel_text.specs.outcome.Outcome.{Outcome as OutcomeOf};
ghost use Rattle.kernel_ask.specs.EndedAt.{StandsAtEnd};
ghost use Rattle.kernel_ask.specs.Evaluation.{AreValuesAfter};
ghost use Rattle.kernel_ask.specs.Making.{has_values};
ghost use Rattle.kernel_ask.specs.Wishes.{WishOf};

use crate::done::NamedValue;
use crate::wish::Wish;
use kernel_text::{DeclaredNames, Kernel, Outcome, View};
use std::alloc::{AllocError, Global};
use std::collections::VecDeque;
use std::sync::ledger::Ledger;

/// User expressions of a job that has ended, the first of which are evaluated. It is of one kernel, which stands where the job left it.
#[derive(Drop)]
pub struct Making {
    /// Whether they are evaluated: behind a cell that ran.
    is_wanted: bool,
    rest: VecDeque<Wish>,
    /// With room for all.
    values: Vec<NamedValue>,
}

/// The memory of user expressions that are evaluated. To let go of that of many takes long, so it is handed on to where nobody waits.
#[derive(Drop)]
pub struct SpentWishes {
    _queue: VecDeque<Wish>,
}

/// Whether it is that of a cell that ran.
fn is_run(outcome: &Outcome) -> bool
    ensures { result ≡ has_values outcome.now }
{
    match outcome {
        Outcome::Ran(_, _) => true,
        Outcome::Failed(_, _)
        | Outcome::Interrupted(_)
        | Outcome::Undid(_, _)
        | Outcome::Redid(_, _)
        | Outcome::Went(_, _, _)
        | Outcome::Refused(_) => false,
    }
}

/// Room for the values of so many user expressions, all of which was written to: whoever fills it under a lock meets no memory that nobody touched before.
///
/// # Errors
///
/// `AllocError` where there is no memory.
pub fn room_for(alloc: Global, count: usize) -> Result<Vec<NamedValue>, AllocError>
    ensures empty { IfOk result (λ room. room.items ≡ []) }
    ensures room { IfOk result (λ room. count ≤ vec_capacity room) }
{
    let mut room = Vec::with_capacity(alloc, count)?;
    for _i in 0..count {
        room.push_reserved(NamedValue {
            name: String::new(alloc),
            value: Ok(0),
        });
    }
    room.clear();
    Ok(room)
}

impl Making {
    ghost use Rattle.kernel_ask.specs.Making.{IsUnderWay, HasRoom, left_of};

    /// None is evaluated yet. It takes no memory.
    pub fn new(outcome: &Outcome, wishes: Vec<Wish>, room: Vec<NamedValue>) -> Making
        requires empty { room.items ≡ [] }
        requires room { vec_len wishes ≤ vec_capacity room }
        ensures { (s : Past) → StandsAtEnd outcome.now s → IsUnderWay outcome.now s wishes.items result }
    {
        let is_wanted = is_run(outcome);
        Making {
            is_wanted,
            rest: VecDeque::from_vec(wishes),
            values: room,
        }
    }

    /// The value of the next one, if one is left; whether one was. The world of the position is lent, with its declared names.
    fn make_next<L: Ledger>(
        &mut self,
        alloc: Global,
        world: &View<'_, L>,
        names: &DeclaredNames<'_, L>,
    ) -> bool
        requires names { KnowsNamesOf names.now world.now.store }
        requires room { HasRoom self.old }
        ensures goes { (o : OutcomeOf) (s : Past) (given : List WishOf) → world.now ≡ here s → IsUnderWay o s given self.old → IsUnderWay o s given self.new }
        ensures room { HasRoom self.new }
        ensures fewer { length (left_of self.new) ≡ length (left_of self.old) - 1 }
        ensures left { result ≡ false → left_of self.new ≡ [] }
        ensures some { result ≡ true → 0 < length (left_of self.old) }
    {
        let Some(wish) = self.rest.pop_front() else {
            return false;
        };
        if self.is_wanted {
            let named = wish.evaluate(alloc, world, names);
            self.values.push_reserved(named);
        }
        true
    }

    /// The values of so many more at most; whether more may be left. The declared names and the world are lent by the kernel, and the values go into
    /// the room for them: so nothing grows here.
    pub fn make<L: Ledger>(&mut self, alloc: Global, kernel: &Kernel<L>, most: u32) -> bool
        requires idle { kernel.now.machine.state.job ≡ Idle }
        requires room { HasRoom self.old }
        ensures goes { (o : OutcomeOf) (given : List WishOf) → IsUnderWay o kernel.now.machine.state.past given self.old →
            IsUnderWay o kernel.now.machine.state.past given self.new }
        ensures fewer { length (left_of self.new) ≡ length (left_of self.old) - most }
        ensures left { result ≡ false → left_of self.new ≡ [] }
        // It answers that more may be left only where so many were.
        ensures some { result ≡ true → most ≤ length (left_of self.old) }
    {
        let names = kernel.declared_names();
        let world = kernel.world();
        for _i in 0..most {
            if !self.make_next(alloc, &world, &names) {
                return false;
            }
        }
        true
    }

    /// The values of all that are left.
    pub fn finish<L: Ledger>(&mut self, alloc: Global, kernel: &Kernel<L>)
        requires idle { kernel.now.machine.state.job ≡ Idle }
        requires room { HasRoom self.old }
        ensures goes { (o : OutcomeOf) (given : List WishOf) → IsUnderWay o kernel.now.machine.state.past given self.old →
            IsUnderWay o kernel.now.machine.state.past given self.new }
        ensures left { left_of self.new ≡ [] }
    {
        let names = kernel.declared_names();
        let world = kernel.world();
        for _i in 0..self.rest.len() {
            let _made = self.make_next(alloc, &world, &names);
        }
    }

    /// The values, once none is left, and the memory of the user expressions.
    pub fn values(self) -> (Vec<NamedValue>, SpentWishes)
        requires { left_of self ≡ [] }
        ensures { (o : OutcomeOf) (s : Past) (given : List WishOf) → IsUnderWay o s given self → AreValuesAfter o s given result.0.items }
    {
        let Making { rest, values, .. } = self;
        (values, SpentWishes { _queue: rest })
    }
}
