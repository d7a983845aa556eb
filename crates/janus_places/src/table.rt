//! The places of a block's code, each with the part of the text that stands there.

ghost use Rattle.std.specs.Prelude.{◌≡◌, ◌<◌, ◌≤◌, ◌∷◌, ◌++◌, [], ℕ, suc, List, length, map, slice_get, Some, IfOk, OnOk, IsTrue, ◌↔◌, string_bytes};
ghost use Rattle.janus_meaning.specs.Syntax.{Name as TheName};
ghost use Rattle.janus_syntax.specs.Tree.{Block};
ghost use Rattle.janus_syntax.specs.View.{name_of};
ghost use Rattle.janus_slots.specs.Slots.{slot_in};
ghost use Rattle.janus_places.specs.Spots.{Spot, part_of, span_of, locals_of};
ghost use Rattle.janus_places.specs.declared.table.Local.{Local};

use crate::part::Part;
use janus_syntax::Span;
use janus_syntax::tree::Name;
use std::alloc::{AllocError, Global};

/// A local that is open at some places.
#[derive(Drop)]
pub(crate) struct Local {
    pub(crate) name: String,
    /// The place in the table of locals behind the one that it stands over, or 0.
    pub(crate) outer: usize,
}

/// What stands at one place of the code.
#[derive(Clone, Copy)]
pub(crate) struct Row {
    pub(crate) part: Part,
    pub(crate) span: Option<Span>,
    /// The place in the table of locals behind the newest that is open there, or 0.
    pub(crate) locals: usize,
}

/// The places of a block's code, in the order in which it is written.
#[derive(Drop)]
pub struct Table {
    pub(crate) rows: Vec<Row>,
    pub(crate) locals: Vec<Local>,
    // each local stands over an older one
    ghost older: { (i : ℕ) (l : Local) → slice_get locals.items i ≡ Some l → l.outer ≤ i },
}

impl Table {
    ghost use Rattle.janus_places.specs.Standing.{IsTold, AreOpen, code_of};
    ghost use Rattle.janus_places.specs.Table.{IsTableOf, AreLocals, Opens, Adds, places_in, AreOpenIn, HasLocals, HasSameLocals, slot_of};
    ghost use Rattle.janus_linear.specs.Layout.{block_size};

    /// No places.
    pub(crate) fn new(alloc: Global) -> Table
        ensures rows { result.rows.items ≡ [] }
        ensures locals { result.locals.items ≡ [] }
    {
        Table {
            rows: Vec::new(alloc),
            locals: Vec::new(alloc),
        }
    }

    /// Adds a local that stands over an older one, or over none, and gives the place behind it; the only error is want of memory.
    pub(crate) fn open(&mut self, name: &Name, outer: usize) -> Result<usize, AllocError>
        requires { outer ≤ length self.old.locals.items }
        ensures opens { OnOk result (Opens self.old self.new) }
        ensures rows { OnOk result (self.new.rows.items ≡ self.old.rows.items) }
        ensures within { IfOk result (λ n. n ≤ length self.new.locals.items) }
        ensures longer { OnOk result (length self.old.locals.items ≤ length self.new.locals.items) }
        ensures local { IfOk result (λ n. (xs : List TheName) → AreLocals self.old.locals.items outer xs →
            AreLocals self.new.locals.items n (name_of name.now ∷ xs)) }
    {
        let local = Local {
            name: name.text.clone()?,
            outer,
        };
        self.locals.push(local)?;
        Ok(self.locals.len())
    }

    /// Adds a place; the only error is want of memory.
    pub(crate) fn add(
        &mut self,
        part: Part,
        span: Option<Span>,
        locals: usize,
    ) -> Result<(), AllocError>
        ensures adds { OnOk result ((spot : Spot) → part ≡ part_of spot → span ≡ span_of spot → AreLocals self.old.locals.items locals (locals_of spot) →
            Adds self.old self.new (spot ∷ [])) }
        ensures locals { OnOk result (self.new.locals.items ≡ self.old.locals.items) }
    {
        self.rows.push(Row { part, span, locals })?;
        Ok(())
    }

    /// How many places there are, as the code has.
    pub fn len(&self) -> usize
        ensures many { result ≡ places_in self.now }
        ensures code { (es g : List TheName) (b : Block) → IsTableOf self.now b → result ≡ block_size (code_of es g b) }
    {
        self.rows.len()
    }

    /// Which part of a statement stands at a place, and where that is in the text.
    pub fn spot(&self, at: usize) -> (Part, Option<Span>)
        requires { at < places_in self.now }
        ensures { (es g : List TheName) (b : Block) → IsTableOf self.now b → IsTold es g b at result.0 result.1 }
    {
        let row = &self.rows[at];
        (row.part, row.span)
    }

    /// The names of the locals that are open at a place, the newest first; the only error is want of memory.
    pub fn locals(&self, alloc: Global, at: usize) -> Result<Vec<&str>, AllocError>
        requires { at < places_in self.now }
        ensures text { IfOk result (λ names. (es g : List TheName) (b : Block) → IsTableOf self.now b →
            AreOpen es g b at (map (λ name. name.now) names.items)) }
        ensures open { IfOk result (λ names. (xs : List TheName) → AreOpenIn self.now at xs → map (λ name. name.now) names.items ≡ xs) }
    {
        let mut names = Vec::new(alloc);
        let mut behind = self.rows[at].locals;
        while behind > 0 {
            let Some(local) = self.locals.get(behind - 1) else {
                return Ok(names);
            };
            names.push(local.name.as_str())?;
            behind = local.outer;
        }
        Ok(names)
    }

    /// How many locals that are open at a place stand below the newest of a name; none where no open local has it.
    pub fn local(&self, at: usize, name: &str) -> Option<usize>
        requires { at < places_in self.now }
        ensures slot { (xs : List TheName) → AreOpenIn self.now at xs → slot_of result ≡ slot_in xs name.now }
        // Those are the locals that are open there in the text.
        ensures text { (es g : List TheName) (b : Block) → IsTableOf self.now b → HasLocals self.now es g b at }
    {
        self.find(self.rows[at].locals, name)
    }

    /// Whether the same locals are open at another place.
    pub fn has_same_locals(&self, at: usize, other: usize) -> bool
        requires at { at < places_in self.now }
        requires other { other < places_in self.now }
        ensures { IsTrue result ↔ HasSameLocals self.now at other }
    {
        self.rows[at].locals == self.rows[other].locals
    }

    /// How many locals are open behind a place in the table of locals.
    fn count(&self, from: usize) -> usize
        ensures { (xs : List TheName) → AreLocals self.now.locals.items from xs → result ≡ length xs }
    {
        let mut behind = from;
        let mut count: usize = 0;
        while behind > 0 {
            let Some(local) = self.locals.get(behind - 1) else {
                return count;
            };
            count += 1;
            behind = local.outer;
        }
        count
    }

    /// How many of them stand below the newest of a name; none where none has it.
    fn find(&self, from: usize, name: &str) -> Option<usize>
        ensures { (xs : List TheName) → AreLocals self.now.locals.items from xs → slot_of result ≡ slot_in xs name.now }
    {
        let mut behind = from;
        while behind > 0 {
            let Some(local) = self.locals.get(behind - 1) else {
                return None;
            };
            if local.name.as_str() == name {
                return Some(self.count(local.outer));
            }
            behind = local.outer;
        }
        None
    }
}
