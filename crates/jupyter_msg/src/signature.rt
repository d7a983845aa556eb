//! The signature of a message, where it is asked for alone.
ghost use Rattle.std.specs.Prelude.{◌≡◌, IfOk, IfErr, string_bytes};
ghost use Rattle.jupyter_signature.specs.Signature.{signed_text, signature_of};

use crate::fault::MsgFault;
use jupyter_signature::{Key, Parts};
use std::alloc::Global;

/// The signature that is written for the parts under the key: the lower-case hex of HMAC with SHA-256 over header,
/// parent header, metadata and content, in this order. Under an empty key nothing is signed, and the text is empty.
///
/// # Errors
///
/// `Memory` where there is none for the text.
pub fn sign(alloc: Global, key: &Key, parts: &Parts<'_>) -> Result<String, MsgFault>
    ensures text { IfOk result (λ s. string_bytes s ≡ signature_of key.now (signed_text parts.now)) }
    ensures memory { IfErr result (λ e. e ≡ MsgFault.Memory) }
{
    Ok(jupyter_signature::sign(alloc, key, parts)?)
}
