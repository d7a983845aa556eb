//! Two values: the second may have failed, or is where a loop over tokens begins.

ghost use Rattle.std.specs.Prelude.{◌≡◌, MatchResult, Ok, Err};

use crate::text_token::Tokens;

/// Both, if the second is there. Where it is not, the first is let go here, once for all who read one thing behind another, and not at each `?`.
pub(crate) fn both<T: Drop, U, E>(first: T, second: Result<U, E>) -> Result<(T, U), E>
    ensures { MatchResult result (λ x. (x.0 ≡ first) × (second ≡ Ok x.1)) (λ e. second ≡ Err e) }
{
    match second {
        Ok(second) => Ok((first, second)),
        Err(error) => Err(error),
    }
}

/// What is read so far and the tokens behind it, for a loop that moves both on. The loop takes them from a call, as it takes
/// what it reads next: only so does the borrow checker join the two.
pub(crate) fn so_far<T>(read: T, tokens: Tokens) -> (T, Tokens)
    ensures read { result.0 ≡ read }
    ensures tokens { result.1.now ≡ tokens.now }
{
    (read, tokens)
}
