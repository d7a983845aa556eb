//! Lines and columns.
ghost use Rattle.std.specs.Prelude.{◌≡◌, ◌==◌, ◌<◌, length, None, Some};
ghost use Rattle.std.specs.List.{position_or_len, before_first, after_first};
ghost use Rattle.std.specs.Option.{MatchOption};
ghost use Rattle.steps_program.specs.Places.{behind as behind_of, goes_on as goes_on_of, line_in, lines_of, place_at as place_at_of};

/// A line of the file, and in it a column in characters, both from 1.
#[derive(Clone, Copy)]
pub(crate) struct Place {
    pub(crate) line: usize,
    pub(crate) column: usize,
}

/// Whether an octet of UTF-8 doesn't begin a character.
fn goes_on(octet: u8) -> bool
    ensures { result ≡ goes_on_of octet }
{
    (128..=191).contains(&octet)
}

impl Place {
    /// The place behind an octet that stands here.
    fn behind(self, octet: u8) -> Place
        ensures { result ≡ behind_of self octet }
    {
        if octet == b'\n' {
            return Place {
                line: self.line.saturating_add(1),
                column: 1,
            };
        }
        if goes_on(octet) {
            return self;
        }
        Place {
            line: self.line,
            column: self.column.saturating_add(1),
        }
    }
}

/// The place of an octet of a text whose first line has this number in the file; the text's end where it has fewer.
pub(crate) fn place_at(text: &str, first_line: usize, at: usize) -> Place
    ensures { result ≡ place_at_of text.now first_line at }
{
    let octets = text.as_bytes();
    let before = &octets[..at.min(octets.len())];
    let mut place = Place {
        line: first_line,
        column: 1,
    };
    for octet in before {
        place = place.behind(*octet);
    }
    place
}

/// The first line of a text, and what is behind its LF; none where there is no LF.
pub(crate) fn split_line(text: &str) -> Option<(&str, &str)>
    ensures cut { MatchOption result (position_or_len (λ b. b == 10) text.now ≡ length text.now)
        (λ x. (x.0.now ≡ before_first (λ b. b == 10) text.now) × (x.1.now ≡ after_first (λ b. b == 10) text.now)
        × (position_or_len (λ b. b == 10) text.now < length text.now)) }
{
    text.split_once('\n')
}

/// The line of a text that has this number in the file, where its first line has that one.
pub(crate) fn line_of(text: &str, first_line: usize, line: usize) -> Option<&str>
    ensures { MatchOption result (line_in line first_line (lines_of text.now) ≡ None)
        (λ found. line_in line first_line (lines_of text.now) ≡ Some found.now) }
{
    let mut rest = text;
    let mut number = first_line;
    while let Some((part, more)) = split_line(rest) {
        if number == line {
            return Some(part);
        }
        number = number.saturating_add(1);
        rest = more;
    }
    if number == line { Some(rest) } else { None }
}
