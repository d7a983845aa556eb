//! HMAC with SHA-256 (RFC 2104, FIPS 180-4).
ghost use Rattle.std.specs.Prelude.{◌≡◌, ◌++◌, ◌≤◌, length, List, ℕ};
ghost use Rattle.sha2.specs.Hashers.{Holds256};
ghost use Rattle.sha2.specs.Sha256.{sha256};
ghost use Rattle.jupyter_signature.specs.Hmac.{full_block, key_block, xor_pad, hmac_of};

use sha2::{Digest, Sha256};

/// The octets of one block of SHA-256.
const BLOCK: usize = 64;

/// The pad of the inner hash.
pub(crate) const INNER: u8 = 0x36;

/// The pad of the outer hash.
pub(crate) const OUTER: u8 = 0x5C;

/// The octets, with zeros after them up to one block.
fn full_block(octets: &[u8]) -> [u8; BLOCK]
    requires { length octets.now ≤ 64 }
    ensures { result ≡ full_block octets.now }
{
    let mut block = [0; BLOCK];
    block[..octets.len()].copy_from_slice(octets);
    block
}

/// The key as one block: a key longer than a block is hashed first.
pub(crate) fn key_block(key: &[u8]) -> [u8; BLOCK]
    ensures { result ≡ key_block key.now }
{
    if key.len() > BLOCK {
        full_block(&Sha256::digest(key))
    } else {
        full_block(key)
    }
}

/// The block, each of its octets xored with the pad.
fn xor_pad(mut block: [u8; BLOCK], pad: u8) -> [u8; BLOCK]
    ensures { result ≡ xor_pad pad block }
{
    for octet in block.iter_mut() {
        *octet ^= pad;
    }
    block
}

/// A hasher that has taken the block under the pad.
pub(crate) fn hasher_of(block: [u8; BLOCK], pad: u8) -> Sha256
    ensures { Holds256 result (xor_pad pad block) }
{
    Sha256::new_with_prefix(xor_pad(block, pad))
}

/// The outer hash, once the inner hasher has taken its block and the text, and the outer one its block.
pub(crate) fn finish_hash(inner: Sha256, mut outer: Sha256) -> [u8; 32]
    ensures { (taken : List ℕ) → Holds256 inner taken → (block : List ℕ) → Holds256 outer block
        → result ≡ sha256 (block ++ sha256 taken) }
{
    outer.update(inner.finalize());
    outer.finalize()
}

/// The keyed hash of the text, under a key of any length; it takes no memory (RFC 2104, section 2, with SHA-256).
pub fn hmac(key: &[u8], text: &[u8]) -> [u8; 32]
    ensures { result ≡ hmac_of key.now text.now }
{
    let block = key_block(key);
    let mut inner = hasher_of(block, INNER);
    inner.update(text);
    finish_hash(inner, hasher_of(block, OUTER))
}
