//! The date.
ghost use Rattle.std.specs.Prelude.{◌≡◌, ◌+◌, ◌/◌, ◌%◌, ◌<◌, ◌↔◌, IsTrue};
ghost use Rattle.stamp_texts.specs.Date.{HasDate, IsDateText};

use jiff::Timestamp;
use jiff::tz::Offset;

/// The first digit of a number below 100.
fn tens(n: u16) -> u8
    requires { n < 100 }
    ensures { result ≡ 48 + n / 10 }
{
    b'0' + (n / 10) as u8
}

/// The last digit of a number.
fn ones(n: u16) -> u8
    ensures { result ≡ 48 + n % 10 }
{
    b'0' + (n % 10) as u8
}

/// Whether an instant has a date: its year in UTC is not below 0.
pub fn has_date(instant: Timestamp) -> bool
    ensures { IsTrue result ↔ HasDate instant.nanosecond }
{
    Offset::UTC.to_datetime(instant).year() >= 0
}

/// The date and time in UTC of an instant of the years 0 to 9999, to the second: `YYYY-MM-DDTHH:MM:SSZ`.
pub fn date_text(instant: Timestamp) -> [u8; 20]
    requires { HasDate instant.nanosecond }
    ensures { IsDateText instant.nanosecond result }
{
    let shown = Offset::UTC.to_datetime(instant);
    let year = shown.year().unsigned_abs();
    let month = shown.month().unsigned_abs() as u16;
    let day = shown.day().unsigned_abs() as u16;
    let hour = shown.hour().unsigned_abs() as u16;
    let minute = shown.minute().unsigned_abs() as u16;
    let second = shown.second().unsigned_abs() as u16;
    [
        tens(year / 100),
        ones(year / 100),
        tens(year % 100),
        ones(year % 100),
        b'-',
        tens(month),
        ones(month),
        b'-',
        tens(day),
        ones(day),
        b'T',
        tens(hour),
        ones(hour),
        b':',
        tens(minute),
        ones(minute),
        b':',
        tens(second),
        ones(second),
        b'Z',
    ]
}
