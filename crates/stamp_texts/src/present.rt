//! The present date.
ghost use Rattle.std.specs.Prelude.{◌≡◌, true, IfSome};
ghost use Rattle.std.specs.Str.{is_utf8};
ghost use Rattle.stamp_texts.specs.Date.{HasDate, IsDateText, IsDate};

use crate::date::{date_text, has_date};
use jiff::Timestamp;
use std::str;
use std::time::Clock;

/// A date that is text, as each is.
fn as_text(date: [u8; 20]) -> Option<[u8; 20]>
    ensures same { IfSome result (λ text. text ≡ date) }
    ensures text { IfSome result (λ text. is_utf8 text ≡ true) }
{
    match str::from_utf8(&date) {
        Ok(_) => Some(date),
        Err(_) => None,
    }
}

/// The date of an instant, to the second; `None` where its year is not 0 to 9999.
fn date_of(instant: Timestamp) -> Option<[u8; 20]>
    ensures dated { IfSome result (λ _. HasDate instant.nanosecond) }
    ensures date { IfSome result (IsDateText instant.nanosecond) }
    ensures text { IfSome result (λ date. is_utf8 date ≡ true) }
{
    let is_dated = has_date(instant);
    if is_dated {
        match as_text(date_text(instant)) {
            Some(date) => Some(date),
            None => None,
        }
    } else {
        None
    }
}

/// The date by the clock, to the second, as text; `None` where the clock can't be read, or its year is not 0 to 9999.
pub fn present_date<R: Clock>(rt: &R) -> Option<[u8; 20]>
    ensures date { IfSome result IsDate }
    ensures text { IfSome result (λ date. is_utf8 date ≡ true) }
{
    match Timestamp::now(rt) {
        Ok(instant) => date_of(instant),
        Err(_) => None,
    }
}
