//! The one store, the procedures in effect, and the place in the code of the open cell.
//!
//! It alone runs the machine of Janus: what stands above runs cells by these contracts.
ghost use Rattle.std.specs.Prelude.{◌≡◌, ◌+◌, ◌<◌, ℕ, List, [], map, length, take, IfOk, OnOk, OnErr, IsOk, true, false};
ghost use Rattle.janus_meaning.specs.Store.{Store as TheStore};
ghost use Rattle.janus_meaning.specs.Shape.{shape_of};
ghost use Rattle.janus_meaning.specs.FormedWorld.{AreNew, HaveValues};
ghost use Rattle.janus_meaning.specs.World.{empty_world, declare as declared_in, declare_one as declared_one_in, declared_name};
ghost use Rattle.kernel_runner.specs.Declarable.{HasStackRoom};
ghost use Rattle.janus_syntax.specs.Tree.{declaration_view, declarations_view};
ghost use Rattle.janus_syntax.specs.View.{plain_declaration};
ghost use Rattle.kernel_runner.specs.Program.{cell_of_program};
ghost use Rattle.janus_slots.specs.Numbers.{IsUnmet};
ghost use Rattle.janus_machine.specs.StoreState.{IsWhole, shown_store};
ghost use Rattle.janus_machine.specs.Procedures.{kept_in};
ghost use Rattle.janus_machine.specs.Bodies.{AreDefined, AreBelow};
ghost use Rattle.janus_machine.specs.Cursors.{has_ended};
ghost use Rattle.janus_machine.specs.Steps.{end_of};
ghost use Rattle.janus_meaning.specs.Writes.{IsWritten};
ghost use Rattle.kernel_runner.specs.Runner.{ShownWorld, over, Becomes, IsDeclaredOver, count_of, Is, Between, IsInside};
ghost use Rattle.kernel_runner.specs.Runner.{writes_of, steps_of, KeepsCounts, CameBy, progress_at};
ghost use Rattle.kernel_runner.specs.Runner.{CanEnter, CanReturn, CanLeave, Enters, EntersInverse, Runs, Turns, GoesBack, Leaves};
ghost use Rattle.kernel_machine.specs.StepsOfSlices.{steps_on, steps_back};

use crate::program::Program;
use janus_machine::{
    Book, CountedStore, Cursor, End, Procedures, RoomFault, Stepped, Store, slice, step,
};
use janus_slots::Names;
use janus_syntax::tree::Declaration;
use kernel_machine::Progress;
use std::alloc::{AllocError, Global};
use std::sync::ledger::{Blank, Ledger};

/// The store, whose declared names are the shown world, the procedures in effect, and the cursor in the open cell's code.
#[derive(Drop)]
pub struct Runner<L: Ledger> {
    /// The store, with the counts of its writes and of the steps over it.
    pub counted: CountedStore<L>,
    pub cursor: Cursor,
    pub procedures: Procedures,
    /// The names of the procedures of all nodes, and of an open posted cell, each with its number.
    pub entries: Names,
}

impl<L: Ledger> Runner<L> {
    /// The empty world, with no writes and no steps so far, which are counted in the ledger that is opened by this blank. It takes the memory that
    /// every run needs, that of all stacks, locals and calls.
    ///
    /// # Errors
    ///
    /// `RoomFault::Memory` where there is no memory for it.
    pub fn new(alloc: Global, blank: Blank) -> Result<Runner<L>, RoomFault>
        requires name { blank.name ≡ L.name }
        requires parts { blank.parts ≡ L.parts }
        requires two { 1 < L.parts }
        ensures unwritten { IfOk result (λ runner. writes_of runner ≡ 0) }
        ensures no_steps { IfOk result (λ runner. steps_of runner ≡ 0) }
        ensures is { IfOk result (λ runner. Is runner (Between (over [] empty_world))) }
        ensures none { IfOk result (λ runner. kept_in runner.procedures ≡ []) }
        ensures no_names { IfOk result (λ runner. runner.entries ≡ []) }
    {
        let cursor = Cursor::new(alloc)?;
        Ok(Runner {
            counted: CountedStore::new(alloc, blank)?,
            cursor,
            procedures: Procedures::new(alloc),
            entries: Names::new(alloc),
        })
    }

    /// Declares the names of a cell and defines its procedures, and stands before its first step.
    pub fn enter(&mut self, program: &Program) -> Result<(), AllocError>
        requires { (from : ShownWorld) × CanEnter self.old program.now from }
        ensures ok { OnOk result (Enters program.now self.old self.new) }
        ensures err { OnErr result (Becomes self.old.counted.store self.new.counted.store (shown_store self.old.counted.store)) }
        ensures same { OnErr result (self.new.procedures ≡ self.old.procedures) }
        ensures kept { kept_in self.new.procedures ≡ kept_in self.old.procedures }
        ensures entries { self.new.entries ≡ self.old.entries }
        ensures counts { KeepsCounts self.old self.new }
        // Without names it takes no memory.
        ensures none { (cell_of_program program.now).declarations ≡ [] → IsOk result }
    {
        declare(&mut self.counted.store, program.declarations())?;
        self.procedures
            .define_all(program.first, program.procedures().len());
        let book = Book {
            code: &program.book,
            procedures: &self.procedures,
        };
        self.cursor.enter(&book);
        Ok(())
    }

    /// Stands before the first step of the cell's inverse. The cell has led to the shown world.
    pub fn enter_inverse(&mut self, program: &Program)
        requires { (from : ShownWorld) × CanReturn self.old program.now from }
        ensures enters { EntersInverse program.now self.old self.new }
        ensures counted { self.new.counted ≡ self.old.counted }
        ensures procedures { self.new.procedures ≡ self.old.procedures }
        ensures entries { self.new.entries ≡ self.old.entries }
    {
        let book = Book {
            code: &program.book,
            procedures: &self.procedures,
        };
        self.cursor.enter_inverse(&book);
    }

    /// How many steps of the open cell are taken, and not taken back.
    pub fn count(&self) -> u64
        ensures { result ≡ count_of self.now }
    {
        self.cursor.count()
    }

    /// Takes up to `m` steps, or all that are left to the end or to a fault.
    pub fn run(&mut self, program: &Program, m: u64) -> Progress
        requires { IsInside self.old program.now false }
        ensures runs { Runs program.now m result self.old self.new }
        ensures procedures { self.new.procedures ≡ self.old.procedures }
        ensures entries { self.new.entries ≡ self.old.entries }
        ensures written { IsWritten (steps_on (count_of self.old) m result) (writes_of self.old) (writes_of self.new) }
        ensures counted { steps_of self.new ≡ steps_of self.old + steps_on (count_of self.old) m result }
        ensures came { CameBy program.now m (steps_on (count_of self.old) m result) self.old self.new }
    {
        let book = Book {
            code: &program.book,
            procedures: &self.procedures,
        };
        let sliced = slice(&book, &mut self.cursor, &mut self.counted, m);
        progress(sliced.end, self.cursor.count())
    }

    /// Takes one step, as a run of one does, where the code has not ended.
    pub fn step(&mut self, program: &Program) -> Progress
        requires inside { IsInside self.old program.now false }
        requires more { has_ended self.old.cursor ≡ false }
        ensures runs { Runs program.now 1 result self.old self.new }
        ensures procedures { self.new.procedures ≡ self.old.procedures }
        ensures entries { self.new.entries ≡ self.old.entries }
        ensures written { IsWritten (steps_on (count_of self.old) 1 result) (writes_of self.old) (writes_of self.new) }
        ensures counted { steps_of self.new ≡ steps_of self.old + steps_on (count_of self.old) 1 result }
        ensures came { CameBy program.now 1 (steps_on (count_of self.old) 1 result) self.old self.new }
    {
        let book = Book {
            code: &program.book,
            procedures: &self.procedures,
        };
        let stepped = step(&book, &mut self.cursor, &mut self.counted);
        progress(end(stepped), self.cursor.count())
    }

    /// Turns round where it stands: the next steps go back.
    pub fn turn(&mut self, program: &Program)
        requires { IsInside self.old program.now false }
        ensures turns { Turns program.now self.old self.new }
        ensures counted { self.new.counted ≡ self.old.counted }
        ensures procedures { self.new.procedures ≡ self.old.procedures }
        ensures entries { self.new.entries ≡ self.old.entries }
    {
        let book = Book {
            code: &program.book,
            procedures: &self.procedures,
        };
        self.cursor.mirror(&book);
    }

    /// Goes `m` steps back, or all.
    pub fn back(&mut self, program: &Program, m: u64)
        requires { IsInside self.old program.now true }
        ensures goes { GoesBack program.now m self.old self.new }
        ensures procedures { self.new.procedures ≡ self.old.procedures }
        ensures entries { self.new.entries ≡ self.old.entries }
        ensures written { IsWritten (steps_back (count_of self.old) m) (writes_of self.old) (writes_of self.new) }
        ensures counted { steps_of self.new ≡ steps_of self.old + steps_back (count_of self.old) m }
        ensures came { CameBy program.now m (steps_back (count_of self.old) m) self.old self.new }
    {
        let book = Book {
            code: &program.book,
            procedures: &self.procedures,
        };
        let _sliced = slice(&book, &mut self.cursor, &mut self.counted, m);
    }

    /// Takes back the declarations and the definitions of a cell, from the world in which its statements begin.
    pub fn leave(&mut self, program: &Program)
        requires { (to : ShownWorld) × CanLeave self.old program.now to }
        ensures leaves { Leaves program.now self.old self.new }
        ensures cursor { self.new.cursor ≡ self.old.cursor }
        ensures kept { kept_in self.new.procedures ≡ kept_in self.old.procedures }
        ensures entries { self.new.entries ≡ self.old.entries }
        ensures counts { KeepsCounts self.old self.new }
    {
        retire(&mut self.counted.store, program.declarations().len());
        self.procedures
            .retire_all(program.first, program.procedures().len());
    }

    /// Forgets a program that has been left, the one that was loaded last: its bodies are kept no more, and the names that came into the table for it
    /// stand there no more.
    pub fn forget(&mut self, program: &Program)
        ensures kept { kept_in self.new.procedures ≡ take program.now.first (kept_in self.old.procedures) }
        ensures entries { self.new.entries ≡ take program.now.first_name self.old.entries }
        ensures store { self.new.counted.store ≡ self.old.counted.store }
        ensures cursor { self.new.cursor ≡ self.old.cursor }
        ensures counts { KeepsCounts self.old self.new }
        // Where none of its bodies is in effect or hidden.
        ensures defined { (stack : List ℕ) → AreDefined self.old.procedures stack → AreBelow program.now.first stack → AreDefined self.new.procedures stack }
    {
        self.procedures.forget(program.first);
        self.entries.truncate(program.first_name);
    }
}

/// How far a run came whose slice ended for this reason, at this count.
fn progress(end: End, count: u64) -> Progress
    ensures { result ≡ progress_at end count }
{
    match end {
        End::Cut => Progress::Went,
        End::Ended => Progress::Ended(count),
        End::Fault(fault) => Progress::Stopped(count, fault),
    }
}

/// Why the slice of one step ends that did this.
fn end(stepped: Stepped) -> End
    ensures { result ≡ end_of stepped }
{
    match stepped {
        Stepped::Went => End::Cut,
        Stepped::Ended => End::Ended,
        Stepped::Fault(fault) => End::Fault(fault),
    }
}

/// Takes the newest names away, which have the values that they were declared with.
fn retire<L: Ledger>(store: &mut Store<L>, count: usize)
    requires declared { (before : TheStore) × IsDeclaredOver store.old count before }
    requires texts { length store.old.texts ≡ store.old.declared }
    requires whole { IsWhole store.old }
    ensures becomes { (before : TheStore) → IsDeclaredOver store.old count before → Becomes store.old store.new before }
{
    store.slots_law();
    for _i in 0..count {
        store.retire();
    }
}

/// Declares new names, which are 0 or empty then. An error for want of memory leaves what is declared.
fn declare<L: Ledger>(store: &mut Store<L>, declarations: &[Declaration]) -> Result<(), AllocError>
    requires values { HaveValues (shown_store store.old) }
    requires new { AreNew (shape_of (shown_store store.old)) (map plain_declaration (declarations_view declarations.now)) }
    requires texts { length store.old.texts ≡ store.old.declared }
    requires whole { IsWhole store.old }
    ensures ok { OnOk result (Becomes store.old store.new (declared_in (map plain_declaration (declarations_view declarations.now)) (shown_store store.old))) }
    ensures err { OnErr result (Becomes store.old store.new (shown_store store.old)) }
    ensures none { declarations.now ≡ [] → IsOk result }
{
    store.slots_law();
    for i in 0..declarations.len() {
        if let Err(error) = declare_one(store, &declarations[i]) {
            retire(store, i);
            return Err(error);
        }
    }
    Ok(())
}

/// Declares a new name. An error for want of memory leaves what is declared.
fn declare_one<L: Ledger>(store: &mut Store<L>, declaration: &Declaration) -> Result<(), AllocError>
    requires absent { IsUnmet store.old.texts (declared_name (plain_declaration (declaration_view declaration.now))) }
    requires texts { length store.old.texts ≡ store.old.declared }
    requires whole { IsWhole store.old }
    requires room { HasStackRoom (plain_declaration (declaration_view declaration.now)) store.old.slots }
    ensures ok { OnOk result (Becomes store.old store.new (declared_one_in (plain_declaration (declaration_view declaration.now)) (shown_store store.old))) }
    ensures err { OnErr result (Becomes store.old store.new (shown_store store.old)) }
{
    let declared = match declaration {
        Declaration::Int(name) => store.declare(name.text.as_str()),
        Declaration::Array(name, length, _) => {
            store.declare_array(name.text.as_str(), *length as usize)
        }
        Declaration::Stack(name) => store.declare_stack(name.text.as_str()),
    };
    store.slots_law();
    declared
}
