//! Numbers of cells and of nodes, as words.
ghost use Rattle.std.specs.Prelude.{◌≡◌, Some, None, if◌then◌else◌};
ghost use Rattle.std.specs.Char.{is_ascii_digit};
ghost use Rattle.std.specs.List.{list_all};
ghost use Rattle.std.specs.Str.Parse.{digits_value};
ghost use Rattle.console_words.specs.Count.{is_count, is_short_number};

/// Whether each octet of a text is an ASCII digit.
fn has_digits_alone(text: &str) -> bool
    ensures { result ≡ list_all is_ascii_digit text.now }
{
    text.bytes().all(|c| c.is_ascii_digit())
}

/// Whether a text is 1 to 10 ASCII digits.
fn is_short_number(text: &str) -> bool
    ensures { result ≡ is_short_number text.now }
{
    !text.is_empty() && text.len() <= 10 && has_digits_alone(text)
}

/// The number that 1 to 10 digits write, if it is at most 4294967295.
pub(crate) fn count(digits: &str) -> Option<u32>
    ensures { result ≡ (if is_count digits.now then Some (digits_value 10 digits.now) else None) }
{
    if !is_short_number(digits) {
        return None;
    }
    digits.parse::<u32>().ok()
}
