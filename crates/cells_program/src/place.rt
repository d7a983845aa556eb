//! A place in a text, as an editor tells it.
ghost use Rattle.std.specs.Prelude.{◌≡◌, ◌<◌, ◌+◌, ◌^◌, ◌&&◌, nat_le};
ghost use Rattle.cells_program.specs.Place.{behind as behind_of, goes_on as goes_on_of, place_at as place_at_of};

/// A line, and in it a column in characters, both from 1.
#[derive(Clone, Copy)]
pub(crate) struct Place {
    pub(crate) line: usize,
    pub(crate) column: usize,
}

/// Whether an octet of UTF-8 doesn't begin a character.
fn goes_on(octet: u8) -> bool
    ensures { result ≡ goes_on_of octet }
{
    (128..=191).contains(&octet)
}

/// The place behind an octet.
fn behind(place: Place, octet: u8) -> Place
    requires line { place.line + 1 < 2 ^ 64 }
    requires column { place.column + 1 < 2 ^ 64 }
    ensures { result ≡ behind_of place octet }
{
    if octet == b'\n' {
        return Place {
            line: place.line + 1,
            column: 1,
        };
    }
    if goes_on(octet) {
        return place;
    }
    Place {
        line: place.line,
        column: place.column + 1,
    }
}

/// The place of the octet of this number; the text's end where it has fewer.
pub(crate) fn place_at(text: &str, at: usize) -> Place
    ensures { result ≡ place_at_of text.now at }
{
    let octets = text.as_bytes();
    let before = &octets[..at.min(octets.len())];
    let mut place = Place { line: 1, column: 1 };
    for octet in before {
        place = behind(place, *octet);
    }
    place
}
