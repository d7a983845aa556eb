//! The bodies of all procedures that cells define, and which of them are in effect.

ghost use Rattle.std.specs.Prelude.{◌≡◌, ◌+◌, ◌<◌, ◌≤◌, ℕ, List, [], ◌∷◌, ◌++◌, length, slice_get, take};
ghost use Rattle.std.specs.Prelude.{Some, None, IfOk, OnOk, OnErr};
ghost use Rattle.janus_machine.specs.declared.procedures.Body.{Body};

use crate::linked_procedure::LinkedProcedure;
use std::alloc::{AllocError, Global};

/// A body, and what it hides while it is in effect.
#[derive(Drop)]
pub(crate) struct Body {
    pub(crate) procedure: LinkedProcedure,
    /// The place behind the body that it hides, or 0.
    pub(crate) hidden: usize,
}

/// The bodies of procedures, each at its index, and for the number of each name the body that is in effect.
#[derive(Drop)]
pub struct Procedures {
    pub(crate) bodies: Vec<Body>,
    /// For each number the place behind the body in effect, or 0. Numbers past its end have none.
    pub(crate) newest: Vec<usize>,
    // the name of each body has a place there
    ghost wide: { (i : ℕ) (b : Body) → slice_get bodies.items i ≡ Some b → b.procedure.name < length newest.items },
}

impl Procedures {
    ghost use Rattle.janus_machine.specs.Bodies.{AreDefined, IsOutside, AreBelow, IsPutIntoEffect, AreOthersKept, onto};
    ghost use Rattle.janus_machine.specs.Procedures.{bodies_of, kept_in, places_in, place_in_effect, body_at, in_effect};

    /// No bodies. It takes no memory.
    pub fn new(alloc: Global) -> Procedures
        ensures none { kept_in result ≡ [] }
        ensures unknown { (n : ℕ) → body_at result n ≡ None }
        ensures defined { AreDefined result [] }
    {
        Procedures {
            bodies: Vec::new(alloc),
            newest: Vec::new(alloc),
        }
    }

    /// How many bodies are kept.
    pub fn len(&self) -> usize
        ensures { result ≡ length (kept_in self.now) }
    {
        self.bodies.len()
    }

    /// The body in effect of the name of a number.
    pub fn body(&self, name: usize) -> Option<&LinkedProcedure>
        ensures { in_effect result ≡ body_at self.now name }
    {
        let behind = match self.newest.get(name) {
            Some(behind) => *behind,
            None => 0,
        };
        if behind == 0 {
            return None;
        }
        match self.bodies.get(behind - 1) {
            Some(body) => Some(&body.procedure),
            None => None,
        }
    }

    /// Keeps a body behind the others, not in effect, and answers its index; an error for want of memory leaves what is kept
    /// and what is in effect.
    pub fn add(&mut self, procedure: LinkedProcedure) -> Result<usize, AllocError>
        ensures index { IfOk result (λ index. index ≡ length (kept_in self.old)) }
        ensures kept { OnOk result (kept_in self.new ≡ kept_in self.old ++ procedure ∷ []) }
        ensures err { OnErr result (kept_in self.new ≡ kept_in self.old) }
        ensures defined { (stack : List ℕ) → AreDefined self.old stack → AreDefined self.new stack }
        // A bound above the number of its name stays one.
        ensures few { (n : ℕ) → places_in self.old ≤ n → procedure.name < n → places_in self.new ≤ n }
    {
        self.reach(procedure.name)?;
        let index = self.bodies.len();
        let body = Body {
            procedure,
            hidden: 0,
        };
        self.bodies.push(body)?;
        Ok(index)
    }

    /// Makes a place for the name of a number; an error for want of memory.
    fn reach(&mut self, name: usize) -> Result<(), AllocError>
        ensures reached { OnOk result (name < places_in self.new) }
        ensures bodies { bodies_of self.new ≡ bodies_of self.old }
        ensures newest { (n : ℕ) → place_in_effect self.new n ≡ place_in_effect self.old n }
        ensures few { (n : ℕ) → places_in self.old ≤ n → name < n → places_in self.new ≤ n }
    {
        while self.newest.len() <= name {
            self.newest.push(0)?;
        }
        Ok(())
    }

    /// Puts the body of an index, which is not yet in effect nor hidden, into effect for its name. It remembers what it hides. It takes no memory.
    pub fn define(&mut self, index: usize)
        requires inside { index < length (kept_in self.old) }
        requires new { (stack : List ℕ) × AreDefined self.old stack × IsOutside index stack }
        ensures kept { kept_in self.new ≡ kept_in self.old }
        ensures in_effect { IsPutIntoEffect self.old self.new index }
        ensures defined { (stack : List ℕ) → AreDefined self.old stack → IsOutside index stack → AreDefined self.new (index ∷ stack) }
    {
        let name = self.bodies[index].procedure.name;
        self.bodies[index].hidden = self.newest[name];
        self.newest[name] = index + 1;
    }

    /// Takes the body of an index out of effect, which was put into effect last: what it hid is in effect again. It takes no memory.
    pub fn retire(&mut self, index: usize)
        requires inside { index < length (kept_in self.old) }
        requires newest { (stack : List ℕ) × AreDefined self.old (index ∷ stack) }
        ensures kept { kept_in self.new ≡ kept_in self.old }
        ensures others { AreOthersKept self.old self.new index }
        ensures defined { (stack : List ℕ) → AreDefined self.old (index ∷ stack) → AreDefined self.new stack }
    {
        let name = self.bodies[index].procedure.name;
        self.newest[name] = self.bodies[index].hidden;
    }

    /// Puts bodies that stand one behind another, and behind all that are in effect or hidden, into effect, one after another. It takes no memory.
    pub fn define_all(&mut self, first: usize, count: usize)
        requires inside { first + count ≤ length (kept_in self.old) }
        requires new { (stack : List ℕ) × AreDefined self.old stack × AreBelow first stack }
        ensures kept { kept_in self.new ≡ kept_in self.old }
        ensures defined { (stack : List ℕ) → AreDefined self.old stack → AreBelow first stack → AreDefined self.new (onto first count stack) }
    {
        for i in 0..count {
            self.define(first + i);
        }
    }

    /// Takes them out of effect again, the last one first. They were put into effect last. It takes no memory.
    pub fn retire_all(&mut self, first: usize, count: usize)
        requires inside { first + count ≤ length (kept_in self.old) }
        requires newest { (stack : List ℕ) × AreDefined self.old (onto first count stack) }
        ensures kept { kept_in self.new ≡ kept_in self.old }
        ensures defined { (stack : List ℕ) → AreDefined self.old (onto first count stack) → AreDefined self.new stack }
    {
        let mut left = count;
        while left > 0 {
            left -= 1;
            self.retire(first + left);
        }
    }

    /// Drops the bodies from an index on. It takes no memory.
    pub fn forget(&mut self, from: usize)
        ensures kept { kept_in self.new ≡ take from (kept_in self.old) }
        ensures places { places_in self.new ≡ places_in self.old }
        // Where none of them is in effect or hidden.
        ensures defined { (stack : List ℕ) → AreDefined self.old stack → AreBelow from stack → AreDefined self.new stack }
    {
        self.bodies.truncate(from);
    }
}
