//! The name of a session.
ghost use Rattle.std.specs.Prelude.{◌≡◌, IfOk, string_bytes};
ghost use Rattle.rand_core.specs.Stream.{fill_bytes};
ghost use Rattle.uuid.specs.Parts.{v4_of_fill};
ghost use Rattle.uuid.specs.Text.{hyphenated_text, lower};

use rand_core::Rng;
use std::alloc::{AllocError, Global};
use uuid::Uuid;

/// The name of a session: the version 4 identifier that the generator's next sixteen octets make, in 36 lower-case characters. The only
/// error is want of memory; the octets are drawn all the same.
pub fn session_name<R: Rng>(alloc: Global, rng: &mut R) -> Result<String, AllocError>
    ensures name { IfOk result (λ name. string_bytes name ≡ hyphenated_text lower (v4_of_fill (fill_bytes 16 (R.stream rng.old))).0) }
    ensures stream { R.stream rng.new ≡ (v4_of_fill (fill_bytes 16 (R.stream rng.old))).1 }
{
    let id = Uuid::new_v4(rng);
    let mut buffer = Uuid::encode_buffer();
    let text = id.hyphenated().encode_lower(&mut buffer);
    String::from_str(alloc, text)
}
