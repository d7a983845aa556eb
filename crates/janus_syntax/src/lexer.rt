//! From a text to its tokens.

ghost use Rattle.std.specs.Prelude.{◌≡◌, ◌<◌, ◌≤◌, ℕ, List, [], ◌∷◌, length, get_or, IfSome, IfNone, MatchOption, take, drop};
ghost use Rattle.std.specs.List.{prefix_len};
ghost use Rattle.std.specs.Str.{IsCharBoundary};
ghost use Rattle.janus_syntax.specs.Spelling.{keyword_text, sign_text};
ghost use Rattle.janus_syntax.specs.Lexical.{class_of, in_line, decimal, IsNoKeyword, NoItem, IsNumberText, AreTokens, largest_number};
ghost use Rattle.janus_syntax.specs.Scan.{goes_on, IsLongestSign, IsFrontText, IsFrontOf, IsFirstChar, IsKindOf};
ghost use Rattle.janus_syntax.specs.Scan.{IsTextLexed, IsTextOnly, keyword_of, pair_of, single_of, is_swap};
ghost use Rattle.janus_syntax.specs.Text.{IsLexed, IsOnly};
ghost use Rattle.janus_syntax.specs.Tokens.{Token as AToken};

use crate::fault::SyntaxFault;
use crate::text_token::{TextKind, TextToken};
use crate::token::{Keyword, Sign, Span, Token};
use std::alloc::Global;

/// The kinds of octets.
#[derive(Clone, Copy)]
enum Class {
    Letter,
    Digit,
    Underscore,
    Space,
    Other,
}

/// What stands at the front of a text.
#[derive(Clone, Copy)]
enum Front {
    Gap,
    Letters,
    Digits,
    Sign(Sign),
}

/// The largest number of a text.
const LARGEST_NUMBER: u64 = 2147483647;

fn class_of(octet: u8) -> Class
    ensures { result ≡ class_of octet }
{
    match octet {
        b'A'..=b'Z' | b'a'..=b'z' => Class::Letter,
        b'0'..=b'9' => Class::Digit,
        b'_' => Class::Underscore,
        b' ' | b'\t' | b'\r' | b'\n' => Class::Space,
        _ => Class::Other,
    }
}

/// Whether an octet of this class belongs to a run that begins with one of the first class.
fn goes_on(first: Class, class: Class) -> bool
    ensures { result ≡ goes_on first class }
{
    match class {
        Class::Digit => true,
        Class::Letter | Class::Underscore => first == Class::Letter,
        Class::Space | Class::Other => false,
    }
}

/// How many octets from the front on belong to the run.
fn run_len(octets: &[u8], first: Class) -> usize
    ensures { result ≡ prefix_len (λ c. goes_on first (class_of c)) octets.now }
{
    let mut n = 0;
    while n < octets.len() && goes_on(first, class_of(octets[n])) {
        n += 1;
    }
    n
}

/// How many octets stand before the end of the line.
fn line_len(octets: &[u8]) -> usize
    ensures { result ≡ prefix_len in_line octets.now }
{
    let mut n = 0;
    while n < octets.len() && octets[n] != b'\n' {
        n += 1;
    }
    n
}

/// The octet at this place, or 0 behind the end.
fn octet_at(octets: &[u8], place: usize) -> u8
    ensures { result ≡ get_or octets.now place 0 }
{
    if place < octets.len() {
        octets[place]
    } else {
        0
    }
}

/// The only keyword that may have this many octets and this first octet.
fn keyword_of(len: usize, first: u8) -> Option<Keyword>
    ensures { result ≡ keyword_of len first }
{
    match (len, first) {
        (2, b'd') => Some(Keyword::Do),
        (2, b'f') => Some(Keyword::Fi),
        (2, b'i') => Some(Keyword::If),
        (3, b'i') => Some(Keyword::Int),
        (3, b'n') => Some(Keyword::Nil),
        (3, b'p') => Some(Keyword::Pop),
        (3, b't') => Some(Keyword::Top),
        (4, b'c') => Some(Keyword::Call),
        (4, b'e') => Some(Keyword::Else),
        (4, b'f') => Some(Keyword::From),
        (4, b'l') => Some(Keyword::Loop),
        (4, b'm') => Some(Keyword::Main),
        (4, b'p') => Some(Keyword::Push),
        (4, b's') => Some(Keyword::Skip),
        (4, b't') => Some(Keyword::Then),
        (5, b'e') => Some(Keyword::Empty),
        (5, b'l') => Some(Keyword::Local),
        (5, b's') => Some(Keyword::Stack),
        (5, b'u') => Some(Keyword::Until),
        (6, b'u') => Some(Keyword::Uncall),
        (7, b'd') => Some(Keyword::Delocal),
        (9, b'p') => Some(Keyword::Procedure),
        _ => None,
    }
}

/// The keyword that the text is.
fn keyword_at(text: &str) -> Option<Keyword>
    ensures { MatchOption result (IsNoKeyword text.now) (λ w. text.now ≡ keyword_text w) }
{
    let keyword = keyword_of(text.len(), octet_at(text.as_bytes(), 0))?;
    if keyword.text() == text {
        Some(keyword)
    } else {
        None
    }
}

/// The sign of two octets that these are.
fn pair_of(first: u8, second: u8) -> Option<Sign>
    ensures table { result ≡ pair_of first second }
    ensures text { IfSome result (λ s. sign_text s ≡ first ∷ second ∷ []) }
{
    match (first, second) {
        (b'+', b'=') => Some(Sign::PlusEquals),
        (b'-', b'=') => Some(Sign::MinusEquals),
        (b'^', b'=') => Some(Sign::XorEquals),
        (b'&', b'&') => Some(Sign::And),
        (b'|', b'|') => Some(Sign::Or),
        (b'!', b'=') => Some(Sign::Differs),
        (b'<', b'=') => Some(Sign::AtMost),
        (b'>', b'=') => Some(Sign::AtLeast),
        _ => None,
    }
}

/// The sign of one octet that this is.
fn single_of(octet: u8) -> Option<Sign>
    ensures table { result ≡ single_of octet }
    ensures text { IfSome result (λ s. sign_text s ≡ octet ∷ []) }
{
    match octet {
        b'+' => Some(Sign::Plus),
        b'-' => Some(Sign::Minus),
        b'*' => Some(Sign::Times),
        b'/' => Some(Sign::Divide),
        b'%' => Some(Sign::Remainder),
        b'^' => Some(Sign::Xor),
        b'&' => Some(Sign::BitAnd),
        b'|' => Some(Sign::BitOr),
        b'=' => Some(Sign::Equals),
        b'<' => Some(Sign::Less),
        b'>' => Some(Sign::Greater),
        b'(' => Some(Sign::Open),
        b')' => Some(Sign::Close),
        b'[' => Some(Sign::OpenIndex),
        b']' => Some(Sign::CloseIndex),
        b',' => Some(Sign::Comma),
        _ => None,
    }
}

/// Whether these octets are `<=>`.
fn is_swap(first: u8, second: u8, third: u8) -> bool
    ensures { result ≡ is_swap first second third }
{
    first == b'<' && second == b'=' && third == b'>'
}

/// The longest sign that the text begins with.
fn sign_at(octets: &[u8]) -> Option<Sign>
    ensures { IsLongestSign octets.now result }
{
    let first = octet_at(octets, 0);
    let second = octet_at(octets, 1);
    if is_swap(first, second, octet_at(octets, 2)) {
        return Some(Sign::Swap);
    }
    match pair_of(first, second) {
        Some(sign) => Some(sign),
        None => single_of(first),
    }
}

/// The number that these digits stand for, if it isn't past the largest.
fn number(digits: &[u8]) -> Option<u32>
    requires { IsNumberText digits.now }
    ensures { MatchOption result (largest_number < decimal digits.now) (λ n. (n ≡ decimal digits.now) × (n ≤ largest_number)) }
{
    let mut value = 0;
    for digit in digits {
        value = value * 10 + (*digit - b'0') as u64;
        if value > LARGEST_NUMBER {
            return None;
        }
    }
    Some(value as u32)
}

/// What stands at the front of a text, and how many octets it has: the longest item that fits. Nothing, if the first
/// character begins no item.
fn front_of(text: &str) -> Option<(Front, usize)>
    requires { 0 < length text.now }
    ensures found { IfSome result (λ x. IsFrontOf x.0 x.1 text.now) }
    ensures cut { IfSome result (λ x. IsCharBoundary text.now x.1) }
    ensures none { IfNone result (NoItem text.now) }
{
    let octets = text.as_bytes();
    match class_of(octets[0]) {
        Class::Letter => Some((Front::Letters, run_len(octets, Class::Letter))),
        Class::Digit => Some((Front::Digits, run_len(octets, Class::Digit))),
        Class::Space => Some((Front::Gap, 1)),
        Class::Underscore => None,
        Class::Other => {
            if octets.starts_with(b"//") {
                return Some((Front::Gap, line_len(octets)));
            }
            let sign = sign_at(octets)?;
            Some((Front::Sign(sign), sign.text().len()))
        }
    }
}

/// How many octets the first character has.
fn first_char_len(text: &str) -> usize
    requires { 0 < length text.now }
    ensures char { IsFirstChar result text.now }
    ensures in_range { result ≤ length text.now }
{
    match text.chars().next() {
        Some(character) => character.len_utf8(),
        None => 0,
    }
}

/// The token of a text's front part, or nothing for a gap.
fn token_kind(front: Front, text: &str, span: Span) -> Result<Option<TextKind>, SyntaxFault>
    requires { IsFrontText front text.now }
    ensures { IsKindOf text.now span result }
{
    match front {
        Front::Gap => Ok(None),
        Front::Letters => match keyword_at(text) {
            Some(keyword) => Ok(Some(TextKind::Keyword(keyword))),
            None => Ok(Some(TextKind::Name(text))),
        },
        Front::Digits => match number(text.as_bytes()) {
            Some(number) => Ok(Some(TextKind::Number(number))),
            None => Err(SyntaxFault::NumberTooLarge(span)),
        },
        Front::Sign(sign) => Ok(Some(TextKind::Sign(sign))),
    }
}

/// The tokens of a text, in their order, by the rules of `tokens`.
pub(crate) fn text_tokens(alloc: Global, text: &str) -> Result<Vec<TextToken>, SyntaxFault>
    ensures read { IsTextLexed text.now result }
    ensures only { (ts : List AToken) → AreTokens text.now ts → IsTextOnly ts result }
{
    let mut tokens = Vec::new(alloc);
    let mut rest = text;
    let mut start = 0;
    while !rest.is_empty() {
        let Some((front, len)) = front_of(rest) else {
            let end = start + first_char_len(rest);
            return Err(SyntaxFault::BadToken(Span { start, end }));
        };
        let span = Span {
            start,
            end: start + len,
        };
        let (part, after) = rest.split_at(len);
        if let Some(kind) = token_kind(front, part, span)? {
            tokens.push(TextToken { kind, span })?;
        }
        rest = after;
        start = span.end;
    }
    Ok(tokens)
}

/// The tokens of a text, in their order. The first character that begins no token is a bad token, the first number past
/// the largest is too large; the one that stands first is answered. `Memory` promises nothing.
pub fn tokens(alloc: Global, text: &str) -> Result<Vec<Token>, SyntaxFault>
    ensures read { IsLexed text.now result }

    // There are no other tokens.
    ensures only { (ts : List AToken) → AreTokens text.now ts → IsOnly ts result }
{
    let found = text_tokens(alloc, text)?;
    let mut tokens = Vec::new(alloc);
    for token in &found {
        tokens.push(token.kept(alloc)?)?;
    }
    Ok(tokens)
}
