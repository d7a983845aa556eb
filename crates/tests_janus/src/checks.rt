//! Rows of cells and the names before them. `declare` declares a name as a `number`, an `array` or a `stack`, and gives the kind of the
//! name. `define` defines a procedure with parameters of these kinds, and gives their kinds. `check` says that a cell passes over
//! these, or gives its fault: the number, and the fault with its place.
use crate::subject::{Subject, tell_rows};
use janus_check::{CheckFault, Checked, Env, Kind, check};
use janus_syntax::{SyntaxFault, parse_cell};
use std::alloc::{AllocError, Global};
use tests_rows::{Sheet, cut, written};

/// Writes the calls, over no names at first, with their answers.
pub(crate) fn tell(calls: &str, sheet: &mut Sheet) {
    tell_rows(&mut Env::new(sheet.alloc()), calls, sheet);
}

impl Subject for Env {
    fn answer(&mut self, call: &str, sheet: &mut Sheet) {
        let (word, rest) = cut(call);
        let (first, second) = cut(rest);
        match word {
            "declare" => declare(self, first, kind_of(second), sheet),
            "define" => define(self, first, second, sheet),
            _ => check_row(self, rest, sheet),
        }
    }
}

/// The kind that a word names.
fn kind_of(word: &str) -> Kind {
    match word {
        "array" => Kind::Array,
        "stack" => Kind::Stack,
        _ => Kind::Number,
    }
}

/// Declares a name that isn't declared yet, and tells its kind.
fn declare(env: &mut Env, name: &str, kind: Kind, sheet: &mut Sheet) {
    if env.kind(name).is_none() {
        match String::from_str(sheet.alloc(), name) {
            Ok(name) => keep(env.declare(name, kind), sheet),
            Err(_) => sheet.refuse(),
        }
    }
    sheet.show(&env.kind(name));
}

/// Keeps whether memory was refused.
fn keep(came: Result<(), AllocError>, sheet: &mut Sheet) {
    if came.is_err() {
        sheet.refuse();
    }
}

/// Defines a procedure that isn't defined yet, and tells the kinds of its parameters.
fn define(env: &mut Env, name: &str, words: &str, sheet: &mut Sheet) {
    match kinds_of(sheet.alloc(), words) {
        Ok(kinds) => define_with(env, name, kinds, sheet),
        Err(_) => sheet.refuse(),
    }
    sheet.show(&env.head(name));
}

/// The kinds that words name.
fn kinds_of(alloc: Global, words: &str) -> Result<Vec<Kind>, AllocError> {
    let mut kinds = Vec::new(alloc);
    for word in words.split_whitespace() {
        kinds.push(kind_of(word))?;
    }
    Ok(kinds)
}

/// Defines a procedure with parameters of these kinds, if it isn't defined yet.
fn define_with(env: &mut Env, name: &str, kinds: Vec<Kind>, sheet: &mut Sheet) {
    if env.head(name).is_none() {
        match String::from_str(sheet.alloc(), name) {
            Ok(name) => keep(env.define(name, kinds), sheet),
            Err(_) => sheet.refuse(),
        }
    }
}

/// What the check says of the cell of a row.
fn check_row(env: &Env, row: &str, sheet: &mut Sheet) {
    match written(sheet.alloc(), row) {
        Ok(text) => check_text(env, &text, sheet),
        Err(_) => sheet.refuse(),
    }
}

/// What the check says of the cell of a text.
fn check_text(env: &Env, text: &str, sheet: &mut Sheet) {
    let alloc = sheet.alloc();
    match parse_cell(alloc, text) {
        Ok(cell) => match check(alloc, env, cell) {
            Ok(checked) => tell_passed(checked, sheet),
            Err(fault) => tell_fault(&fault, sheet),
        },
        Err(SyntaxFault::Memory) => sheet.show(&SyntaxFault::Memory),
        Err(_) => sheet.write("is no cell"),
    }
}

/// That a cell passes.
fn tell_passed(checked: Checked<Env>, sheet: &mut Sheet) {
    let _cell = checked.into_cell();
    sheet.write("passes");
}

/// Why a cell is refused.
fn tell_fault(fault: &CheckFault, sheet: &mut Sheet) {
    sheet.show(&fault.number());
    sheet.write(" ");
    sheet.show(fault);
}
