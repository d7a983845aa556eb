//! Dates of instants, and the name of a session.
use jiff::Timestamp;
use rand_chacha::ChaCha20Rng;
use rand_core::SeedableRng;
use stamp_texts::{date_text, has_date, session_name};
use tests_rows::Sheet;

/// Tells the date of an instant, by its seconds since 1970, where it has one.
pub(crate) fn tell_date(digits: &str, sheet: &mut Sheet) {
    sheet.write(": ");
    match Timestamp::from_second(digits.parse::<i64>().unwrap_or(0)) {
        Ok(instant) => tell_instant(instant, sheet),
        Err(_) => sheet.write("no instant"),
    }
}

/// Tells the date of an instant.
fn tell_instant(instant: Timestamp, sheet: &mut Sheet) {
    if has_date(instant) {
        sheet.write(str::from_utf8(&date_text(instant)).unwrap_or("no text"));
    } else {
        sheet.write("no date");
    }
}

/// Tells the name that a session has by octets of ChaCha20 under a key of zeros.
pub(crate) fn tell_name(sheet: &mut Sheet) {
    let mut rng = ChaCha20Rng::from_seed([0; 32]);
    let name = sheet.made(session_name(sheet.alloc(), &mut rng));
    sheet.write(": ");
    sheet.write(&name);
}
