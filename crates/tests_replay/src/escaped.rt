//! Octets as a text that people can read.
use std::alloc::{AllocError, Global};

/// Octets as text: printable ones of ASCII as they are, others and the backslash as `\xNN`.
pub fn escaped(alloc: Global, octets: &[u8]) -> Result<String, AllocError> {
    let mut text = String::new(alloc);
    for octet in octets {
        push(&mut text, *octet)?;
    }
    Ok(text)
}

fn push(text: &mut String, octet: u8) -> Result<(), AllocError> {
    if octet.is_ascii_graphic() && octet != b'\\' || octet == b' ' {
        return text.push(char::from(octet));
    }
    text.push_str("\\x")?;
    text.push(digit(octet / 16))?;
    text.push(digit(octet % 16))
}

/// The hexadecimal digit of a number below 16.
fn digit(number: u8) -> char {
    match char::from_digit(u32::from(number), 16) {
        Some(digit) => digit,
        None => '?',
    }
}
