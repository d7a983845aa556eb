//! What is known before a cell: the names that are declared already, and the procedures that are defined.
ghost use Rattle.std.specs.Prelude.{◌≡◌, ◌↔◌, None, Some, IsTrue, OnOk, OnErr, IfSome, MatchOption, [], ◌∷◌, ◌++◌, length, string_bytes, ◌<◌, ◌^◌, ◌+◌};
ghost use Rattle.janus_meaning.specs.Shape.{Shape, kind_at, head_at, count_stack, stack_count, different};
ghost use Rattle.janus_meaning.specs.Syntax.{names_of};
ghost use Rattle.janus_slots.specs.Slots.{slot, slot_in};
ghost use Rattle.janus_check.specs.Names.{kind_found, meant_kind, meant_kinds, shape_in, heads_in, over};

use crate::table::SymbolTable;
use indexmap::IndexMap;
use std::alloc::{AllocError, Global};
use std::marker::Model;

/// What a name stands for.
#[derive(Clone, Copy, Debug, PartialEq, Eq)]
pub enum Kind {
    Number,
    Array,
    Stack,
}

/// The declared names with their kinds, and the procedures with the kinds of their parameters. Contracts see them as two lists,
/// in order of declaration and of definition.
#[derive(Drop)]
pub struct Env {
    names: IndexMap<String, Kind>,
    /// The number of stacks among them.
    stacks: usize,
    procedures: IndexMap<String, Vec<Kind>>,
}

impl Model for Env {
    ghost use Rattle.janus_check.specs.Names.{AreKept, Known, names_kept, procedures_kept};

    ghost Value = { Known };

    ghost view = { λ e. record { names = names_kept e.names.entries; procedures = procedures_kept e.procedures.entries } };

    ghost invariant = { λ e. AreKept e.names.entries e.stacks e.procedures.entries };
}

impl Env {
    /// No names and no procedures.
    pub fn new(alloc: Global) -> Env
        ensures names { result.names ≡ [] }
        ensures procedures { result.procedures ≡ [] }
    {
        Env {
            names: IndexMap::new(alloc),
            stacks: 0,
            procedures: IndexMap::new(alloc),
        }
    }

    /// Adds a name, which is not there yet; after an error for want of memory nothing is added.
    pub fn declare(&mut self, name: String, kind: Kind) -> Result<(), AllocError>
        requires { kind_at (string_bytes name) (shape_in self.old.names) ≡ None }
        ensures ok { OnOk result (self.new.names ≡ self.old.names ++ (string_bytes name, kind) ∷ []) }
        ensures procedures { self.new.procedures ≡ self.old.procedures }
        ensures err { OnErr result (self.new.names ≡ self.old.names) }
    {
        let stacks = self.stacks_with(kind);
        self.names.insert(name, kind)?;
        self.stacks = stacks;
        Ok(())
    }

    /// Adds a procedure, which is not there yet, with the kinds of its parameters; after an error for want of memory nothing is
    /// added.
    pub fn define(&mut self, name: String, kinds: Vec<Kind>) -> Result<(), AllocError>
        requires { head_at (string_bytes name) (heads_in self.old.procedures) ≡ None }
        ensures ok { OnOk result (self.new.procedures ≡ self.old.procedures ++ (string_bytes name, kinds.items) ∷ []) }
        ensures names { self.new.names ≡ self.old.names }
        ensures err { OnErr result (self.new.procedures ≡ self.old.procedures) }
    {
        self.procedures.insert(name, kinds)?;
        Ok(())
    }

    /// The kind of a name, if it is there.
    pub fn kind(&self, name: &str) -> Option<Kind>
        ensures { kind_found result ≡ kind_at name.now (shape_in self.now.names) }
    {
        self.names.get(name).copied()
    }

    /// The index of a name in the order of declaration, if it is there. Over other names it is the name's slot behind theirs.
    pub fn place(&self, name: &str) -> Option<usize>
        ensures slot { MatchOption result (kind_at name.now (shape_in self.now.names) ≡ None)
            (λ i. (g : Shape) → slot_in (names_of (over g self.now.names)) name.now ≡ slot (length g + i)) }
        ensures small { IfSome result (λ i. i < 2 ^ 63) }
    {
        let _names = self.len();
        self.names.get_index_of(name)
    }

    /// The kinds of a procedure's parameters, if it is there.
    pub fn head(&self, name: &str) -> Option<&[Kind]>
        ensures { MatchOption result (head_at name.now (heads_in self.now.procedures) ≡ None)
            (λ kinds. head_at name.now (heads_in self.now.procedures) ≡ Some (meant_kinds kinds.now)) }
    {
        match self.procedures.get(name) {
            Some(kinds) => Some(kinds),
            None => None,
        }
    }

    /// The number of names.
    pub fn len(&self) -> usize
        ensures count { result ≡ length self.now.names }
        ensures small { result < 2 ^ 63 }
    {
        self.names.len()
    }

    /// The number of stacks among the names.
    pub fn stacks(&self) -> usize
        ensures count { result ≡ stack_count (shape_in self.now.names) }
        ensures small { result < 2 ^ 63 }
    {
        let _names = self.len();
        self.stacks
    }

    /// The number of procedures.
    pub fn procedures(&self) -> usize
        ensures count { result ≡ length self.now.procedures }
        ensures distinct { result ≡ different (heads_in self.now.procedures) }
        ensures small { result < 2 ^ 63 }
    {
        self.procedures.len()
    }

    /// The number of stacks among the names, with one name more of this kind.
    fn stacks_with(&self, kind: Kind) -> usize
        ensures { result ≡ count_stack (meant_kind kind) (stack_count (shape_in self.now.names)) }
    {
        match kind {
            Kind::Number | Kind::Array => self.stacks(),
            Kind::Stack => self.stacks() + 1,
        }
    }

    /// Whether there are no names.
    pub fn is_empty(&self) -> bool
        ensures { IsTrue result ↔ (self.now.names ≡ []) }
    {
        self.names.is_empty()
    }
}

impl SymbolTable for Env {
    ghost known = { λ e. e };

    fn kind(&self, name: &str) -> Option<Kind> {
        Env::kind(self, name)
    }

    fn place(&self, name: &str) -> Option<usize> {
        Env::place(self, name)
    }

    fn head(&self, name: &str) -> Option<&[Kind]> {
        Env::head(self, name)
    }

    fn len(&self) -> usize {
        Env::len(self)
    }

    fn stacks(&self) -> usize {
        Env::stacks(self)
    }

    fn procedures(&self) -> usize {
        Env::procedures(self)
    }

    fn procedures_law(&self) {
        let _count = Env::procedures(self);
    }
}
