//! A cell's text, made a program that the runner can run.
ghost use Rattle.std.specs.Prelude.{◌≡◌, ◌+◌, ℕ, List, IfOk, IfErr, OnOk, OnErr, length};
ghost use Rattle.janus_meaning.specs.Syntax.{Proc, names_of};
ghost use Rattle.janus_meaning.specs.World.{declare};
ghost use Rattle.janus_slots.specs.Numbers.{GoOn};
ghost use Rattle.janus_slots.specs.Slots.{names_in, block_in};
ghost use Rattle.janus_slots.specs.Law.{AreListed};
ghost use Rattle.janus_syntax.specs.Text.{HasTree};
ghost use Rattle.janus_syntax.specs.Tree.{cell_view};
ghost use Rattle.janus_syntax.specs.View.{plain_cell};
ghost use Rattle.janus_check.specs.Checked.{cell_in, known_in, names_seen, heads_called};
ghost use Rattle.janus_code.specs.Slotted.{HasEntries};
ghost use Rattle.kernel_runner.specs.StoreState.{shown_store};
ghost use Rattle.kernel_runner.specs.Places.{block_in as block_of_book, names_under};
ghost use Rattle.kernel_runner.specs.Procedures.{kept_in};
ghost use Rattle.kernel_runner.specs.direction.Direction.TheVariants.{Forward};
ghost use Rattle.kernel_machine.specs.Language.{IsSound};
ghost use Rattle.kernel_machine.specs.Text.{Accepts, Refuses};
ghost use Rattle.kernel_runner.specs.Program.{cell_of_program, procedures_of, IsReady};
ghost use Rattle.kernel_runner.specs.Runner.{ShownWorld, Is, Between, steps_of};
ghost use Rattle.kernel_loader.specs.Keeping.{KeepsOlder, HaveNumbersBelow};
ghost use Rattle.kernel_loader.specs.Loading.{OfEachShown, ShowsKnown, KeepsShown, AddNamesOf, AreProceduresOf, TakesFewPlaces, IsReadyOnceKept};

use crate::checking::{cell_of_text, checked};
use crate::keeping::{bodies_of, keep_all, slots_law};
use crate::listing::list_all;
use crate::tables::Tables;
use janus_check::{Checked, SymbolTable};
use janus_code::flatten;
use janus_slots::Names;
use janus_syntax::tree::Cell;
use kernel_machine::Refusal;
use kernel_runner::{LinkedCode, LinkedProcedure, Program, Runner};
use std::alloc::{AllocError, Global};
use std::sync::ledger::Ledger;

/// What is made of a checked cell: its code both ways, and the bodies of its procedures, none of which is kept yet.
#[derive(Drop)]
struct Made {
    cell: Cell,
    book: LinkedCode,
    bodies: Vec<LinkedProcedure>,
}

/// Loads a cell's text over the names that the runner's store declares and the procedures in effect: its program, or why the text is refused. A fault of
/// the text is told before one of the check. The names of its procedures come into the table behind the others, and their bodies are kept behind the
/// others. The store stays, and with it what the runner shows; where the text is refused, the table and the bodies that are kept stay too.
pub fn load<L: Ledger>(
    alloc: Global,
    text: &str,
    runner: &mut Runner<L>,
) -> Result<Program, Refusal>
    requires { (shown : ShownWorld) × Is runner.old (Between shown) × IsSound shown.world }
    ensures accepts { IfOk result (λ program. OfEachShown runner.old (λ w. Accepts w text.now (cell_of_program program))) }
    ensures refuses { IfErr result (λ refusal. OfEachShown runner.old (λ w. Refuses w text.now refusal)) }
    ensures ready { IfOk result (λ program. IsReady runner.new.entries
        (names_in (declare (cell_of_program program).declarations (shown_store runner.old.counted.store))) runner.new.procedures program) }
    ensures named { IfOk result (λ program. AreListed runner.new.entries (procedures_of program)) }
    // Its names are behind those that stood in the table, and are of its procedures.
    ensures first_name { IfOk result (λ program. program.first_name ≡ length runner.old.entries) }
    ensures only { IfOk result (λ program. AddNamesOf runner.old.entries runner.new.entries (procedures_of program)) }
    // What is refused leaves no names in the table.
    ensures no_names { OnErr result (runner.new.entries ≡ runner.old.entries) }
    // Its bodies are behind those that were kept, with none behind them, and what is refused leaves those alone.
    ensures behind { IfOk result (λ program. program.first ≡ length (kept_in runner.old.procedures)) }
    ensures last { IfOk result (λ program. length (kept_in runner.new.procedures) ≡ program.first + length (procedures_of program)) }
    ensures older { KeepsOlder runner.old.procedures runner.new.procedures }
    ensures none { OnErr result (kept_in runner.new.procedures ≡ kept_in runner.old.procedures) }
    ensures kept { runner.new.counted.store ≡ runner.old.counted.store }
    ensures steps { steps_of runner.new ≡ steps_of runner.old }
    ensures entries { GoOn runner.old.entries runner.new.entries }
    ensures shown { KeepsShown runner.old runner.new }
    // Of what is refused no more places are left for its bodies than it has procedures.
    ensures few { OfEachShown runner.old (λ w. (ps : List Proc) × AreProceduresOf w text.now ps × TakesFewPlaces runner.old runner.new ps) }
{
    let cell = cell_of_text(alloc, text)?;
    let first_name = runner.entries.len();
    match list_and_keep(alloc, cell, runner) {
        Ok(program) => Ok(program),
        Err(refusal) => {
            runner.entries.truncate(first_name);
            Err(refusal)
        }
    }
}

/// Lists the names of a cell's procedures, checks it, and keeps their bodies, as `load` does; what is refused may leave some of these names in the table.
fn list_and_keep<L: Ledger>(
    alloc: Global,
    cell: Cell,
    runner: &mut Runner<L>,
) -> Result<Program, Refusal>
    requires { (shown : ShownWorld) × Is runner.old (Between shown) × IsSound shown.world }
    ensures accepts { IfOk result (λ program. OfEachShown runner.old
        (λ w. (text : List ℕ) → HasTree text (cell_view cell) → Accepts w text (cell_of_program program))) }
    ensures refuses { IfErr result (λ refusal. OfEachShown runner.old (λ w. (text : List ℕ) → HasTree text (cell_view cell) → Refuses w text refusal)) }
    ensures same { IfOk result (λ program. cell_of_program program ≡ plain_cell (cell_view cell)) }
    ensures ready { IfOk result (λ program. IsReady runner.new.entries
        (names_in (declare (plain_cell (cell_view cell)).declarations (shown_store runner.old.counted.store))) runner.new.procedures program) }
    ensures named { OnOk result (AreListed runner.new.entries (plain_cell (cell_view cell)).procedures) }
    ensures first_name { IfOk result (λ program. program.first_name ≡ length runner.old.entries) }
    ensures only { AddNamesOf runner.old.entries runner.new.entries (plain_cell (cell_view cell)).procedures }
    ensures behind { IfOk result (λ program. program.first ≡ length (kept_in runner.old.procedures)) }
    ensures last { IfOk result (λ program. length (kept_in runner.new.procedures) ≡ program.first + length (plain_cell (cell_view cell)).procedures) }
    ensures older { KeepsOlder runner.old.procedures runner.new.procedures }
    ensures none { OnErr result (kept_in runner.new.procedures ≡ kept_in runner.old.procedures) }
    ensures kept { runner.new.counted.store ≡ runner.old.counted.store }
    ensures steps { steps_of runner.new ≡ steps_of runner.old }
    ensures entries { GoOn runner.old.entries runner.new.entries }
    ensures shown { KeepsShown runner.old runner.new }
    ensures few { OfEachShown runner.old (λ w. (text : List ℕ) → HasTree text (cell_view cell) →
        (ps : List Proc) × AreProceduresOf w text ps × TakesFewPlaces runner.old runner.new ps) }
{
    let first_name = runner.entries.len();
    let Ok(()) = list_all(&mut runner.entries, &cell.procedures) else {
        return Err(Refusal::Memory);
    };
    let made = match make(alloc, cell, runner) {
        Ok(made) => made,
        Err(refusal) => return Err(refusal),
    };
    let first = runner.procedures.len();
    let Ok(()) = keep_all(made.bodies, &mut runner.procedures) else {
        runner.procedures.forget(first);
        return Err(Refusal::Memory);
    };
    Ok(Program {
        book: made.book,
        cell: made.cell,
        first,
        first_name,
    })
}

/// Checks a cell over the tables of a runner, in which the names of its procedures are listed, and makes its code; or why its text is refused.
fn make<L: Ledger>(alloc: Global, cell: Cell, runner: &Runner<L>) -> Result<Made, Refusal>
    requires shows { (shown : ShownWorld) × Is runner.now (Between shown) × IsSound shown.world }
    requires listed { AreListed runner.now.entries (plain_cell (cell_view cell)).procedures }
    ensures accepts { IfOk result (λ made. OfEachShown runner.now
        (λ w. (text : List ℕ) → HasTree text (cell_view cell) → Accepts w text (plain_cell (cell_view made.cell)))) }
    ensures refuses { IfErr result (λ refusal. OfEachShown runner.now (λ w. (text : List ℕ) → HasTree text (cell_view cell) → Refuses w text refusal)) }
    ensures same { IfOk result (λ made. cell_view made.cell ≡ cell_view cell) }
    ensures ready { IfOk result (λ made. IsReadyOnceKept runner.now.entries
        (names_in (declare (plain_cell (cell_view cell)).declarations (shown_store runner.now.counted.store))) (cell_view cell) made.book made.bodies.items) }
    ensures count { IfOk result (λ made. length made.bodies.items ≡ length (plain_cell (cell_view cell)).procedures) }
    ensures few { IfOk result (λ made. HaveNumbersBelow (length runner.now.entries) made.bodies.items) }
{
    runner.entries.one_number_law();
    let tables = Tables::new(&runner.counted.store, &runner.entries, &runner.procedures);
    let checked = match checked(alloc, &tables, cell) {
        Ok(checked) => checked,
        Err(refusal) => return Err(refusal),
    };
    let Ok((book, bodies)) = link(alloc, &checked, runner) else {
        return Err(Refusal::Memory);
    };
    Ok(Made {
        cell: checked.into_cell(),
        book,
        bodies,
    })
}

/// The code both ways of a cell that was checked over what is known of the shown world, and the bodies of its procedures, which are listed. The only error
/// is want of memory, as which code of more statements, places or names than 32 bits count is refused too.
fn link<L: Ledger, T: SymbolTable>(
    alloc: Global,
    checked: &Checked<T>,
    runner: &Runner<L>,
) -> Result<(LinkedCode, Vec<LinkedProcedure>), AllocError>
    requires known { (shown : ShownWorld) × ShowsKnown runner.now (known_in checked.now) shown }
    requires listed { AreListed runner.now.entries (plain_cell (cell_in checked.now)).procedures }
    ensures ready { IfOk result (λ made. IsReadyOnceKept runner.now.entries
        (names_in (declare (plain_cell (cell_in checked.now)).declarations (shown_store runner.now.counted.store))) (cell_in checked.now) made.0 made.1.items) }
    ensures count { IfOk result (λ made. length made.1.items ≡ length (plain_cell (cell_in checked.now)).procedures) }
    ensures few { IfOk result (λ made. HaveNumbersBelow (length runner.now.entries) made.1.items) }
{
    checked.formed_law();
    let bodies = bodies_of(alloc, checked, &checked.cell().procedures, &runner.entries)?;
    let book = book_of(alloc, checked, &runner.entries)?;
    Ok((book, bodies))
}

/// The code of a cell both ways, which runs over the names that its statements see. The only error is want of memory, as which code of more statements,
/// places or names than 32 bits count is refused too.
fn book_of<T: SymbolTable>(
    alloc: Global,
    checked: &Checked<T>,
    entries: &Names,
) -> Result<LinkedCode, AllocError>
    requires entries { HasEntries (heads_called checked.now) entries.now }
    ensures block { IfOk result (λ book.
        block_of_book book Forward ≡ block_in entries.now (names_of (names_seen checked.now)) (plain_cell (cell_in checked.now)).block) }
    ensures names { IfOk result (λ book. names_under book ≡ length (names_seen checked.now)) }
{
    let Ok(slotted) = flatten(alloc, checked, entries) else {
        return Err(AllocError);
    };
    slots_law(slotted.width);
    let sight = checked.sight();
    let Some(names) = sight.counted() else {
        return Err(AllocError);
    };
    if names > u32::MAX as usize {
        return Err(AllocError);
    }
    LinkedCode::new(alloc, slotted.code, names as u32)
}
