//! Rows of the fields of requests: `field` has a type, the members beside the field, and the field; `header` the members beside a field of
//! the header, and the field. The answer has what is told where the field is missing, and where it has each of the values below.
use crate::requests::{header_of, tell};
use tests_rows::{Sheet, cut, cut_cell};

/// Values of each kind, and the edges of the whole numbers.
const VALUES: &str =
    r#"null true false 0 -1 -0 1.0 1e3 18446744073709551615 18446744073709551616 "x" "tail" [] {}"#;

/// Writes the answer to a call. A row of a header has no type.
pub(crate) fn answer(call: &str, sheet: &mut Sheet) {
    let (word, rest) = cut(call);
    let (msg_type, row) = if word == "field" {
        cut_cell(rest)
    } else {
        ("", rest)
    };
    let (members, field) = cut_cell(row);
    tell_with(msg_type, members, "other", "0", sheet);
    for value in VALUES.split(' ') {
        sheet.write(" ");
        tell_with(msg_type, members, field, value, sheet);
    }
}

/// Writes what becomes of a message of this type whose content has these members and a last one; without a type, of one whose header has them.
fn tell_with(msg_type: &str, members: &str, name: &str, value: &str, sheet: &mut Sheet) {
    let mut object = Sheet::new(sheet.alloc());
    for text in ["{", members, "\"", name, "\":", value, "}"] {
        object.write(text);
    }
    let object = sheet.take(object);
    if msg_type.is_empty() {
        tell(false, &object, "{}", sheet);
    } else {
        let header = header_of(msg_type, sheet);
        tell(false, &header, &object, sheet);
    }
}
