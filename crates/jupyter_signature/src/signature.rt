//! The signature of a message (wire protocol of the Jupyter messaging page).
ghost use Rattle.std.specs.Prelude.{◌≡◌, IfOk, string_bytes};
ghost use Rattle.jupyter_signature.specs.Hmac.{hmac_of};
ghost use Rattle.jupyter_signature.specs.Signature.{signed_text, signature_of, fits};

use crate::key::Key;
use sha2::Digest;
use std::alloc::{AllocError, Global};

/// The four parts that are signed, as octets.
#[derive(Clone, Copy)]
pub struct Parts<'a> {
    /// The header.
    pub header: &'a [u8],
    /// The header of the message that is answered.
    pub parent: &'a [u8],
    /// The metadata.
    pub metadata: &'a [u8],
    /// The content.
    pub content: &'a [u8],
}

/// The keyed hash of the four parts, one after another; it takes no memory and joins nothing.
fn hash_of(key: &Key, parts: &Parts<'_>) -> [u8; 32]
    ensures { result ≡ hmac_of key.now (signed_text parts.now) }
{
    let mut inner = key.begin_hash();
    inner.update(parts.header);
    inner.update(parts.parent);
    inner.update(parts.metadata);
    inner.update(parts.content);
    key.finish_hash(inner)
}

/// The signature that is written for the parts under the key: the lower-case hex of HMAC with SHA-256 over header,
/// parent header, metadata and content, in this order. Under an empty key nothing is signed, and the text is empty.
///
/// # Errors
///
/// Want of memory for the text.
pub fn sign(alloc: Global, key: &Key, parts: &Parts<'_>) -> Result<String, AllocError>
    ensures { IfOk result (λ s. string_bytes s ≡ signature_of key.now (signed_text parts.now)) }
{
    if key.is_empty() {
        return Ok(String::new(alloc));
    }
    hex::encode(alloc, hash_of(key, parts))
}

/// Whether the signature is the one of the parts under the key; under an empty key any is. It takes no memory.
pub fn is_signed(key: &Key, signature: &[u8], parts: &Parts<'_>) -> bool
    ensures { result ≡ fits key.now signature.now (signed_text parts.now) }
{
    if key.is_empty() {
        return true;
    }
    let mut text = [0; 64];
    hex::encode_to_slice(hash_of(key, parts), &mut text).is_ok() && signature == text.as_slice()
}
