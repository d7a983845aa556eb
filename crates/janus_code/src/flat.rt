//! From a cell to flat code.

ghost use Rattle.std.specs.Prelude.{◌≡◌, ◌<◌, ◌≤◌, ◌^◌, List, ℕ, ◌+◌, suc, length, max, slice_index_or, IfOk, OnOk, OnErr};
ghost use Rattle.janus_check.specs.Checked.{cell_in, names_seen, heads_called};
ghost use Rattle.janus_check.specs.Sight.{in_sight};
ghost use Rattle.janus_syntax.specs.View.{stm_of, block_of, plain_cell};
ghost use Rattle.janus_check.specs.Slots.{slot, stm_in, block_in};
ghost use Rattle.janus_code.specs.Flat.{IsBelow, BlocksAreBelow, AreBelow, AreBelow-prop, built, ahead, tree_at, block_at};
ghost use Rattle.janus_code.specs.CodeBlock.{code_block};
ghost use Rattle.janus_code.specs.Grown.{Grows};
ghost use Rattle.janus_code.specs.Held.{IsMember, IsInside, HasMember, AreInsideFrom, AreReached};
ghost use Rattle.janus_meaning.specs.Syntax.{Name, names_of};
ghost use Rattle.janus_code.specs.Expressions.{symbol_name};
ghost use Rattle.janus_code.specs.Numbered.{StatementHasNumbers, HaveNumbers};
ghost use Rattle.janus_code.specs.Seen.{SeesStm, SeesBlk};
ghost use Rattle.janus_code.specs.Slotted.{AreSlots, HasEntries, all_slots};
ghost use Rattle.janus_code.specs.Width.{open_in_stm, open_in_block, width_of};

use crate::code::{Block, Code, SlottedCode, Statement, Symbol};
use crate::expression::{entry, slotted_exp, symbol, symbol_of, symbols, two_flat_exps};
use crate::fault::InvertFault;
use janus_check::{Checked, Kind, Sight, SymbolTable};
use janus_slots::Names;
use janus_syntax::tree::Stm;
use std::alloc::{AllocError, Global};

/// Flat code as far as it is made.
#[derive(Drop)]
struct Draft {
    statements: Vec<Statement>,
    members: Vec<usize>,
    /// A table with as many slots has one for each number.
    width: usize,
    ghost below: { AreBelow members.items statements.items } by { AreBelow-prop members.items statements.items },
}

/// The flat code of a checked cell's statements; each procedure that they may call has its name in the table. The only error is want of memory, as which
/// more names than a `usize` counts are refused too.
pub fn flatten<T: SymbolTable>(
    alloc: Global,
    checked: &Checked<T>,
    entries: &Names,
) -> Result<SlottedCode, InvertFault>
    requires entries { HasEntries (heads_called checked.now) entries.now }
    ensures block { IfOk result
        (λ slotted. (xs : List Name) → AreSlots xs → HaveNumbers xs slotted.code.statements.items →
        code_block xs slotted.code ≡ block_in entries.now (names_of (names_seen checked.now)) (plain_cell (cell_in checked.now)).block) }
    ensures wide { IfOk result (λ slotted. (xs : List Name) → slotted.width ≤ length xs → HaveNumbers xs slotted.code.statements.items) }
    ensures width { IfOk result (λ slotted. slotted.width ≡ width_of entries.now (length (names_seen checked.now)) (plain_cell (cell_in checked.now)).block) }
    // No statement is there that no block holds.
    ensures reached { IfOk result (λ slotted. AreReached slotted.code.members.items slotted.code.statements.items slotted.code.body) }
{
    checked.formed_law();
    let sight = checked.sight();
    Ok(flat_code(alloc, &checked.cell().statements, &sight, entries)?)
}

/// The flat code of a block.
pub(crate) fn flat_code<T: SymbolTable>(
    alloc: Global,
    block: &[Stm],
    sight: &Sight<T>,
    entries: &Names,
) -> Result<SlottedCode, AllocError>
    requires { SeesBlk entries.now (in_sight sight.now) (block_of block.now) }
    ensures block { IfOk result
        (λ slotted. (xs : List Name) → AreSlots xs → HaveNumbers xs slotted.code.statements.items →
        code_block xs slotted.code ≡ block_in entries.now (names_of (in_sight sight.now)) (block_of block.now)) }
    ensures wide { IfOk result (λ slotted. (xs : List Name) → slotted.width ≤ length xs → HaveNumbers xs slotted.code.statements.items) }
    ensures width { IfOk result (λ slotted. slotted.width ≡ width_of entries.now (length (in_sight sight.now)) (block_of block.now)) }
    ensures reached { IfOk result (λ slotted. AreReached slotted.code.members.items slotted.code.statements.items slotted.code.body) }
{
    let Some(count) = sight.counted() else {
        return Err(AllocError);
    };
    let mut draft = Draft {
        statements: Vec::new(alloc),
        members: Vec::new(alloc),
        width: count.max(entries.len()),
    };
    let body = flat_block(alloc, block, sight, entries, &mut draft)?;
    number_law(draft.width);
    // Code is kept for long, so it has no room to spare.
    draft.statements.shrink_to_fit();
    draft.members.shrink_to_fit();
    Ok(SlottedCode {
        code: Code {
            statements: draft.statements,
            members: draft.members,
            body,
        },
        width: draft.width,
    })
}

/// Law: a `usize` has 64 bits.
fn number_law(number: usize)
    ensures { number < 2 ^ 64 }
{}

/// Adds the statements of a block.
#[cycle(flat)]
fn flat_block<T: SymbolTable>(
    alloc: Global,
    block: &[Stm],
    sight: &Sight<T>,
    entries: &Names,
    draft: &mut Draft,
) -> Result<Block, AllocError>
    requires seen { SeesBlk entries.now (in_sight sight.now) (block_of block.now) }
    requires small { length (in_sight sight.now) < 2 ^ 64 }
    requires sight { length (in_sight sight.now) ≤ draft.old.width }
    requires entries { length entries.now ≤ draft.old.width }
    ensures grows { IfOk result (λ b. Grows draft.old.members.items draft.old.statements.items draft.new.members.items draft.new.statements.items) }
    ensures below { IfOk result (λ b. IsBelow draft.new.members.items (length draft.new.statements.items) b) }
    ensures block { IfOk result
        (λ b. block_at (tree_at all_slots draft.new.members.items draft.new.statements.items) draft.new.members.items b
        ≡ block_in entries.now (names_of (in_sight sight.now)) (block_of block.now)) }
    ensures numbered { IfOk result (λ b. (xs : List Name) → draft.new.width ≤ length xs →
        HaveNumbers xs draft.old.statements.items → HaveNumbers xs draft.new.statements.items) }
    ensures wider { draft.old.width ≤ draft.new.width }
    ensures width { OnOk result (draft.new.width ≡ max draft.old.width (length (in_sight sight.now) + open_in_block (block_of block.now))) }
    ensures inside { IfOk result (λ b. AreInsideFrom (length draft.old.statements.items) draft.new.members.items draft.new.statements.items
        (IsMember draft.new.members.items b)) }
{
    let mut numbers = Vec::new(alloc);
    for i in 0..block.len() {
        numbers.push(flat_statement(alloc, &block[i], sight, entries, draft)?)?;
    }
    add_block(draft, &numbers)
}

/// Adds a block with these members.
fn add_block(draft: &mut Draft, numbers: &[usize]) -> Result<Block, AllocError>
    requires { (i : ℕ) → i < length numbers.now → slice_index_or numbers.now i 0 < length draft.old.statements.items }
    ensures grows { IfOk result (λ b. Grows draft.old.members.items draft.old.statements.items draft.new.members.items draft.new.statements.items) }
    ensures below { IfOk result (λ b. IsBelow draft.new.members.items (length draft.new.statements.items) b) }
    ensures block { IfOk result
        (λ b. (xs : List Name) →
        block_at (tree_at xs draft.new.members.items draft.new.statements.items) draft.new.members.items b
        ≡ ahead (tree_at xs draft.old.members.items draft.old.statements.items) numbers.now 0 (length numbers.now)) }
    ensures statements { draft.new.statements.items ≡ draft.old.statements.items }
    ensures width { draft.new.width ≡ draft.old.width }
    ensures members { IfOk result (λ b. (i : ℕ) → i < length numbers.now → IsMember draft.new.members.items b (slice_index_or numbers.now i 0)) }
{
    let start = draft.members.len();
    draft.members.extend_from_slice(numbers)?;
    Ok(Block {
        start,
        end: draft.members.len(),
    })
}

/// The symbol of a local over the names in sight, for which the width then has room. The only error is that a `usize` does not count the names with it.
fn local<T: SymbolTable>(sight: &Sight<T>, draft: &mut Draft) -> Result<Symbol, AllocError>
    requires small { length (in_sight sight.now) < 2 ^ 64 }
    ensures name { IfOk result (λ symbol. symbol_name all_slots symbol ≡ slot (length (names_of (in_sight sight.now)))) }
    ensures number { IfOk result (λ symbol. symbol.number ≡ length (in_sight sight.now)) }
    ensures small { IfOk result (λ symbol. suc (length (in_sight sight.now)) < 2 ^ 64) }
    ensures full { OnErr result (2 ^ 64 ≤ suc (length (in_sight sight.now))) }
    ensures width { OnOk result (draft.new.width ≡ max draft.old.width (suc (length (in_sight sight.now)))) }
    ensures wider { draft.old.width ≤ draft.new.width }
    ensures members { draft.new.members.items ≡ draft.old.members.items }
    ensures statements { draft.new.statements.items ≡ draft.old.statements.items }
{
    let number = sight.len();
    if number == usize::MAX {
        return Err(AllocError);
    }
    draft.width = draft.width.max(number + 1);
    Ok(symbol_of(number))
}

/// Adds a statement, behind those of its blocks, and gives its number.
#[cycle(flat)]
fn flat_statement<T: SymbolTable>(
    alloc: Global,
    statement: &Stm,
    sight: &Sight<T>,
    entries: &Names,
    draft: &mut Draft,
) -> Result<usize, AllocError>
    requires seen { SeesStm entries.now (in_sight sight.now) (stm_of statement.now) }
    requires small { length (in_sight sight.now) < 2 ^ 64 }
    requires sight { length (in_sight sight.now) ≤ draft.old.width }
    requires entries { length entries.now ≤ draft.old.width }
    ensures grows { IfOk result (λ n. Grows draft.old.members.items draft.old.statements.items draft.new.members.items draft.new.statements.items) }
    ensures below { IfOk result (λ n. n < length draft.new.statements.items) }
    ensures tree { IfOk result
        (λ n. tree_at all_slots draft.new.members.items draft.new.statements.items n
        ≡ stm_in entries.now (names_of (in_sight sight.now)) (stm_of statement.now)) }
    ensures numbered { IfOk result (λ n. (xs : List Name) → draft.new.width ≤ length xs →
        HaveNumbers xs draft.old.statements.items → HaveNumbers xs draft.new.statements.items) }
    ensures wider { draft.old.width ≤ draft.new.width }
    ensures width { OnOk result (draft.new.width ≡ max draft.old.width (length (in_sight sight.now) + open_in_stm (stm_of statement.now))) }
    ensures inside { IfOk result (λ n. AreInsideFrom (length draft.old.statements.items) draft.new.members.items draft.new.statements.items (λ m. m ≡ n)) }
{
    match statement {
        Stm::Skip => add(draft, Statement::Skip),
        Stm::Assign(name, update, exp) => {
            let name = symbol(sight, name);
            let exp = slotted_exp(alloc, exp, sight)?;
            add(draft, Statement::Assign(name, *update, exp))
        }
        Stm::AssignElement(name, index, update, exp) => {
            let name = symbol(sight, name);
            let (index, exp) = two_flat_exps(alloc, index, exp, sight)?;
            add(draft, Statement::AssignElement(name, index, *update, exp))
        }
        Stm::Push(variable, stack) => {
            let variable = symbol(sight, variable);
            let stack = symbol(sight, stack);
            add(draft, Statement::Push(variable, stack))
        }
        Stm::Pop(variable, stack) => {
            let variable = symbol(sight, variable);
            let stack = symbol(sight, stack);
            add(draft, Statement::Pop(variable, stack))
        }
        Stm::Swap(one, other) => {
            let one = symbol(sight, one);
            let other = symbol(sight, other);
            add(draft, Statement::Swap(one, other))
        }
        Stm::If(test, then_part, else_part, last) => {
            let then_part = flat_block(alloc, then_part, sight, entries, draft)?;
            let else_part = flat_block(alloc, else_part, sight, entries, draft)?;
            let (test, last) = two_flat_exps(alloc, test, last, sight)?;
            add(draft, Statement::If(test, then_part, else_part, last))
        }
        Stm::Loop(entry, do_part, loop_part, exit) => {
            let do_part = flat_block(alloc, do_part, sight, entries, draft)?;
            let loop_part = flat_block(alloc, loop_part, sight, entries, draft)?;
            let (entry, exit) = two_flat_exps(alloc, entry, exit, sight)?;
            add(draft, Statement::Loop(entry, do_part, loop_part, exit))
        }
        Stm::LocalInt(name, first, block, _, last) => {
            let symbol = local(sight, draft)?;
            let inside = (&*sight).local(&*name, Kind::Number);
            let block = flat_block(alloc, block, &inside, entries, draft)?;
            let (first, last) = two_flat_exps(alloc, first, last, sight)?;
            add(draft, Statement::LocalInt(symbol, first, block, last))
        }
        Stm::LocalStack(name, block, _) => {
            let symbol = local(sight, draft)?;
            let inside = (&*sight).local(&*name, Kind::Stack);
            let block = flat_block(alloc, block, &inside, entries, draft)?;
            add(draft, Statement::LocalStack(symbol, block))
        }
        Stm::Call(called, arguments) => {
            let called = entry(entries, called);
            let arguments = symbols(alloc, sight, arguments)?;
            add(draft, Statement::Call(called, arguments))
        }
        Stm::Uncall(called, arguments) => {
            let called = entry(entries, called);
            let arguments = symbols(alloc, sight, arguments)?;
            add(draft, Statement::Uncall(called, arguments))
        }
    }
}

/// Adds a flat statement, and gives its number.
fn add(draft: &mut Draft, statement: Statement) -> Result<usize, AllocError>
    requires { BlocksAreBelow draft.old.members.items (length draft.old.statements.items) statement }
    ensures grows { IfOk result (λ n. Grows draft.old.members.items draft.old.statements.items draft.new.members.items draft.new.statements.items) }
    ensures below { IfOk result (λ n. n < length draft.new.statements.items) }
    ensures tree { IfOk result
        (λ n. (xs : List Name) →
        tree_at xs draft.new.members.items draft.new.statements.items n
        ≡ built xs (tree_at xs draft.old.members.items draft.old.statements.items) draft.old.members.items statement) }
    ensures width { draft.new.width ≡ draft.old.width }
    ensures numbered { IfOk result
        (λ n. (xs : List Name) → HaveNumbers xs draft.old.statements.items → StatementHasNumbers xs statement → HaveNumbers xs draft.new.statements.items) }
    ensures alone { IfOk result (λ n. AreInsideFrom (length draft.old.statements.items) draft.new.members.items draft.new.statements.items (λ m. m ≡ n)) }
    ensures inside { IfOk result (λ n. (m : ℕ) → HasMember draft.old.members.items m statement → IsInside draft.new.members.items draft.new.statements.items m) }
{
    let number = draft.statements.len();
    draft.statements.push(statement)?;
    Ok(number)
}
