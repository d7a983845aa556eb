//! Rows of connection files: what is read of one, which `Debug` writes without the key, and the key; or the setting that is refused.
use jupyter_msg::Connection;
use tests_rows::{Sheet, unescaped};

/// Writes what is told of a connection file.
pub(crate) fn answer(file: &str, sheet: &mut Sheet) {
    let file = sheet.made(unescaped(sheet.alloc(), file));
    match Connection::read(sheet.alloc(), file.as_bytes()) {
        Ok(connection) => {
            sheet.show(&connection);
            sheet.write(" ");
            sheet.display(&connection.key);
        }
        Err(fault) => sheet.show(&fault),
    }
}
