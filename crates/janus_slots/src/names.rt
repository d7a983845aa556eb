//! The table of names.

ghost use Rattle.std.specs.Prelude.{◌≡◌, ◌<◌, ◌^◌, ◌++◌, ◌∷◌, [], length, take, string_bytes, None, IfSome, IfOk, OnOk, OnErr};
ghost use Rattle.janus_slots.specs.Numbers.{IsNumbered, IsUnmet, Adds, HaveOneNumber};

use indexmap::IndexSet;
use std::alloc::{AllocError, Global};
use std::marker::Model;

/// A table of names. Contracts see them in a row, each at its number.
#[derive(Drop)]
pub struct Names {
    names: IndexSet<String>,
}

impl Model for Names {
    ghost use Rattle.std.specs.Prelude.{List, ℕ, map, string_bytes};
    ghost use Rattle.janus_slots.specs.Numbers.{HaveOneNumber};

    ghost Value = { List (List ℕ) };

    ghost view = { λ n. map string_bytes n.names.keys };

    ghost invariant = { λ n. HaveOneNumber (map string_bytes n.names.keys) };
}

impl Names {
    /// No names. It takes no memory.
    pub fn new(alloc: Global) -> Names
        ensures { result ≡ [] }
    {
        Names {
            names: IndexSet::new(alloc),
        }
    }

    /// How many names there are.
    pub fn len(&self) -> usize
        ensures { result ≡ length self.now }
    {
        self.names.len()
    }

    /// Law: no name has two numbers.
    pub fn one_number_law(&self)
        ensures { HaveOneNumber self.now }
    {
        let _names = &self.names;
    }

    /// Law: the names are few enough to be counted with as many others.
    pub fn few_law(&self)
        ensures { length self.now < 2 ^ 63 }
    {
        let _count = self.names.len();
    }

    /// The number of a name, if it is there.
    pub fn number(&self, name: &str) -> Option<usize>
        ensures met { IfSome result (λ number. IsNumbered self.now number name.now) }
        ensures unmet { result ≡ None → IsUnmet self.now name.now }
    {
        self.names.get_index_of(name)
    }

    /// The name of a number.
    pub fn name(&self, number: usize) -> &str
        requires { number < length self.now }
        ensures { IsNumbered self.now number result.now }
    {
        match self.names.get_index(number) {
            Some(name) => name.as_str(),
            None => unreachable!(),
        }
    }

    /// The number of a name, which is added if it isn't there; an error for want of memory leaves the table.
    pub fn add(&mut self, name: &str) -> Result<usize, AllocError>
        ensures numbered { IfOk result (λ number. IsNumbered self.new number name.now) }
        // It had one, or it is the last one now.
        ensures added { IfOk result (λ number. Adds self.old self.new number name.now) }
        ensures one_number { HaveOneNumber self.new }
        ensures err { OnErr result (self.new ≡ self.old) }
    {
        if let Some(number) = self.number(name) {
            return Ok(number);
        }
        let text = String::from_str(*self.names.allocator(), name)?;
        self.add_new(text)
    }

    /// Takes the newest names away: the oldest ones stay, as many as are told.
    pub fn truncate(&mut self, len: usize)
        ensures names { self.new ≡ take len self.old }
        ensures one_number { HaveOneNumber self.new }
    {
        self.names.truncate(len);
    }

    /// The number of a name that isn't there, and is added; an error for want of memory leaves the table.
    fn add_new(&mut self, name: String) -> Result<usize, AllocError>
        requires { IsUnmet self.old (string_bytes name) }
        ensures ok { IfOk result (λ number. number ≡ length self.old) }
        ensures added { OnOk result (self.new ≡ self.old ++ string_bytes name ∷ []) }
        ensures err { OnErr result (self.new ≡ self.old) }
    {
        let number = self.names.len();
        self.names.insert(name)?;
        Ok(number)
    }
}
