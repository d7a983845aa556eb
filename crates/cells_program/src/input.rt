//! What is read: all that a reader gives, to its end.
ghost use Rattle.std.specs.Prelude.{◌≡◌, ◌≢◌, ◌+◌, ◌≤◌, length, IfSome, IfOk, IfErr, MatchResult, OnOk};
ghost use Rattle.std.specs.String.{string_bytes};
ghost use Rattle.cells_program.specs.RunFault.{IsServed, IsWhyUnread, TakesAtMost, input_limit};

use crate::fault::RunFault;
use std::alloc::Global;
use std::io::Read;

/// The most octets of an input that are taken.
pub const INPUT_LIMIT: usize = 16_777_216;

/// The most octets that are read at once.
const READ_OCTETS: usize = 8192;

/// The text that the reader gives to its end: at most 16,777,216 octets of UTF-8. No more than one octet past these is read,
/// and that one only to tell that the input is too long.
pub fn read_text<R: Read>(alloc: Global, reader: &mut R) -> Result<String, RunFault>
    ensures ok { IfOk result (λ text. IfSome (R.remaining reader.old) (λ xs. string_bytes text ≡ xs)) }
    ensures served { OnOk result (IfSome (R.remaining reader.old) IsServed) }
    ensures err { IfErr result (λ fault. IfSome (R.remaining reader.old) (IsWhyUnread fault)) }
    ensures taken { TakesAtMost (input_limit + 1) (R.remaining reader.old) (R.remaining reader.new) }
    ensures within { MatchResult result (λ _. TakesAtMost input_limit (R.remaining reader.old) (R.remaining reader.new))
        (λ fault. fault ≢ RunFault.TooLong → TakesAtMost input_limit (R.remaining reader.old) (R.remaining reader.new)) }
{
    let octets = read_octets(alloc, reader)?;
    match String::from_utf8(octets) {
        Ok(text) => Ok(text),
        Err(_) => Err(RunFault::NotText),
    }
}

/// The octets that the reader gives to its end.
fn read_octets<R: Read>(alloc: Global, reader: &mut R) -> Result<Vec<u8>, RunFault>
    ensures ok { IfOk result (λ octets. IfSome (R.remaining reader.old) (λ xs. octets.items ≡ xs)) }
    ensures limit { IfOk result (λ octets. length octets.items ≤ input_limit) }
    ensures err { IfErr result (λ fault. IfSome (R.remaining reader.old) (IsWhyUnread fault)) }
    ensures readable { IfErr result (λ fault. fault ≢ RunFault.NotText) }
    ensures taken { TakesAtMost (input_limit + 1) (R.remaining reader.old) (R.remaining reader.new) }
    ensures within { MatchResult result (λ _. TakesAtMost input_limit (R.remaining reader.old) (R.remaining reader.new))
        (λ fault. fault ≢ RunFault.TooLong → TakesAtMost input_limit (R.remaining reader.old) (R.remaining reader.new)) }
{
    let mut octets = Vec::new(alloc);
    let mut room = [0u8; READ_OCTETS];
    // Each read but the last gives an octet at least.
    for _read in 0..u64::MAX {
        // One octet past the limit tells that the input is too long.
        let left = INPUT_LIMIT - octets.len() + 1;
        let end = if left < room.len() { left } else { room.len() };
        let part = &mut room[..end];
        let count = match reader.read(part) {
            Ok(count) => count,
            Err(_) => return Err(RunFault::Read),
        };
        if count == 0 {
            return Ok(octets);
        }
        if count == left {
            return Err(RunFault::TooLong);
        }
        if octets.extend_from_slice(&part[..count]).is_err() {
            return Err(RunFault::Memory);
        }
    }
    Err(RunFault::TooLong)
}
