//! The code of the statements of a row. They are those of a cell that declares the names `x`, `y`, `a` and `s`, and behind them `z` where five are in
//! sight, and that defines a procedure `f`; in the code a name is the slot in which it stands, `x` the first.
ghost use Rattle.std.specs.Prelude.{◌≡◌, []};
ghost use Rattle.janus_check.specs.Checked.{known_in, heads_called};
ghost use Rattle.janus_code.specs.Slotted.{HasEntries};

use janus_check::{Checked, Env, check};
use janus_code::{Code, Names, flatten};
use janus_syntax::parse_cell;
use janus_syntax::tree::Cell;
use std::alloc::{AllocError, Global};
use tests_rows::Sheet;

/// The code of a text, over so many names.
pub(crate) fn code_of_text(alloc: Global, names: usize, text: &str) -> Result<Code, AllocError> {
    let cell = cell_text(alloc, names, text)?;
    match parse_cell(alloc, &cell) {
        Ok(cell) => code_of(alloc, cell),
        Err(_) => Err(AllocError),
    }
}

/// The text of a cell with the statements of a text, over so many names.
fn cell_text(alloc: Global, names: usize, text: &str) -> Result<String, AllocError> {
    let mut cell = Sheet::new(alloc);
    cell.write("int x int y int a[3] stack s ");
    cell.write(if names < 5 { "" } else { "int z " });
    cell.write(text);
    cell.write(" procedure f() skip");
    cell.finish()
}

/// The code of a cell with one procedure.
fn code_of(alloc: Global, cell: Cell) -> Result<Code, AllocError> {
    let env = Env::new(alloc);
    match check(alloc, &env, cell) {
        Ok(checked) => checked_code(alloc, &checked),
        Err(_) => Err(AllocError),
    }
}

/// The code of a checked cell with one procedure.
fn checked_code(alloc: Global, checked: &Checked<'_, Env>) -> Result<Code, AllocError>
    requires { (known_in checked.now).procedures ≡ [] }
{
    let procedures = checked.cell().procedures.as_slice();
    if procedures.len() != 1 {
        return Err(AllocError);
    }
    let mut entries = Names::new(alloc);
    match entries.add(&procedures[0].name.text) {
        Ok(_) => code_over(alloc, checked, &entries),
        Err(_) => Err(AllocError),
    }
}

/// The code of a checked cell, over a table of procedures' names.
fn code_over(alloc: Global, checked: &Checked<'_, Env>, entries: &Names) -> Result<Code, AllocError>
    requires { HasEntries (heads_called checked.now) entries.now }
{
    match flatten(alloc, checked, entries) {
        Ok(slotted) => Ok(slotted.code),
        Err(_) => Err(AllocError),
    }
}
