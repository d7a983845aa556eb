//! Octets that are text.
ghost use Rattle.std.specs.Prelude.{◌≡◌, string_bytes};
ghost use Rattle.std.specs.Str.{IsUtf8};

/// Octets of UTF-8 as a text.
pub fn as_text(octets: Vec<u8>) -> String
    requires { IsUtf8 octets.items }
    ensures { string_bytes result ≡ octets.items }
{
    match String::from_utf8(octets) {
        Ok(text) => text,
        Err(_) => unreachable!(),
    }
}
