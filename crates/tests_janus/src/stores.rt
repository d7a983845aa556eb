//! Rows of the store: `new` is a new one, `number`, `array` with a length, and `stack` one in which a name was declared so. It is told whether no
//! name is declared, how many are, how many stacks may still be, the number of the name's text among theirs, and its value.
ghost use Rattle.std.specs.Prelude.{◌≡◌, ◌<◌};

use crate::values::write_value;
use janus_frames::Store;
use std::alloc::AllocError;
use std::marker::Brand;
use std::sync::ledger::{Blank, Ledger};
use tests_rows::{Sheet, cut, number};

/// Writes the answer to a call.
pub(crate) fn answer(call: &str, sheet: &mut Sheet) {
    match String::from_str(sheet.alloc(), call) {
        Ok(call) => answer_call(&call, sheet),
        Err(_) => sheet.refuse(),
    }
}

/// Writes the answer to a call.
fn answer_call(call: &String, sheet: &mut Sheet) {
    answer_in::<Brand>(Blank::new(2), call, sheet);
}

/// Writes the answer to a call, over this ledger.
fn answer_in<L: Ledger>(blank: Blank, call: &String, sheet: &mut Sheet)
    requires name { blank.name ≡ L.name }
    requires parts { blank.parts ≡ L.parts }
    requires two { 1 < L.parts }
{
    let (word, rest) = cut(call);
    let (name, length) = cut(rest);
    match Store::<L>::new(sheet.alloc(), blank) {
        Ok((mut store, _tally)) => {
            let declared = match word {
                "number" => store.declare(name),
                "array" => store.declare_array(name, number(length)),
                "stack" => store.declare_stack(name),
                _ => Ok(()),
            };
            tell_declared(declared, &store, name, sheet);
        }
        Err(_) => sheet.refuse(),
    }
}

/// What is told of a store and a name, if it was declared.
fn tell_declared<L: Ledger>(
    declared: Result<(), AllocError>,
    store: &Store<L>,
    name: &str,
    sheet: &mut Sheet,
) {
    match declared {
        Ok(()) => tell_store(store, name, sheet),
        Err(_) => sheet.refuse(),
    }
}

/// What is told of a store and a name.
fn tell_store<L: Ledger>(store: &Store<L>, name: &str, sheet: &mut Sheet) {
    sheet.show(&store.has_no_names());
    sheet.write(" ");
    sheet.show(&store.len());
    sheet.write(" ");
    sheet.show(&store.stacks_left());
    sheet.write(" ");
    sheet.show(&store.texts().number(name));
    sheet.write(" ");
    match store.value(name) {
        Some(value) => write_value(value, sheet),
        None => sheet.write("no value"),
    }
}
