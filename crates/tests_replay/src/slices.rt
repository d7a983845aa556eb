//! The slices that a session's kernel is given.
use kernel_server::Slice;
use tests_rows::Sheet;

/// Reads the slices of a list, parted by commas: `3 go, 1 ask`. An empty text is the empty list.
pub(crate) fn read_slices(list: &str, slices: &mut Vec<Slice>, sheet: &mut Sheet) {
    for words in list.split_terminator(", ") {
        match slice_of(words) {
            Some(slice) => push(slice, slices, sheet),
            None => sheet.write("a slice is a number of steps, and go or ask\n"),
        }
    }
}

/// Adds a slice.
fn push(slice: Slice, slices: &mut Vec<Slice>, sheet: &mut Sheet) {
    if slices.push(slice).is_err() {
        sheet.refuse();
    }
}

/// A slice, by the number of its steps and whether it lets the job go on or asks it to stop: `3 go`, `1 ask`.
fn slice_of(words: &str) -> Option<Slice> {
    let (number, kind) = words.split_once(' ')?;
    let is_asked = match kind {
        "go" => false,
        "ask" => true,
        _ => return None,
    };
    let steps = number.parse::<u64>().ok()?;
    Some(Slice { steps, is_asked })
}
