//! Connections with each of some numbers for a setting.
use crate::case::Case;
use crate::desk::NoKernel;
use crate::{connections, lone};
use tests_rows::{Sheet, cut, number};

/// Serves a socket with each number of a row, and writes what is told where it differs from what was told before.
pub(crate) fn tell(row: &str, case: &mut Case, sheet: &mut Sheet) {
    let row = sheet.written(row);
    let (word, rest) = cut(&row);
    let (socket, numbers) = cut(rest);
    let mut last = String::new(sheet.alloc());
    for number in numbers.split(' ') {
        tell_change(word, number, socket, case, &mut last, sheet);
    }
}

/// Serves a socket with this number for a setting, and writes what is told where it differs from what was told last.
fn tell_change(
    word: &str,
    digits: &str,
    socket: &str,
    case: &mut Case,
    last: &mut String,
    sheet: &mut Sheet,
) {
    case.set(word, number(digits));
    let told = told_of(socket, case, sheet);
    if told.as_str() != last.as_str() {
        sheet.write("\n  at ");
        sheet.write(digits);
        sheet.write(&told);
    }
    *last = told;
}

/// What is told of a socket that is served before a new desk, or before a new kernel.
fn told_of(socket: &str, case: &Case, sheet: &mut Sheet) -> String {
    let mut told = Sheet::new(sheet.alloc());
    if case.is_lone {
        lone::tell(case, &mut told);
    } else {
        let mut desk = NoKernel::new(sheet.alloc());
        connections::tell("serve", socket, case, &mut desk, &mut told);
    }
    sheet.take(told)
}
