//! The key under which messages are signed.
ghost use Rattle.std.specs.Prelude.{◌≡◌, ◌↔◌, ◌++◌, List, ℕ, [], IsTrue};
ghost use Rattle.sha2.specs.Hashers.{Holds256};
ghost use Rattle.jupyter_signature.specs.Hmac.{key_block, xor_pad, hmac_of};

use crate::keyed_hash::{INNER, OUTER, finish_hash, hasher_of, key_block};
use sha2::Sha256;
use std::marker::Model;

/// A key of any length under which messages are signed; under an empty one none is. What HMAC makes of it before any text comes is computed
/// once (RFC 2104, section 4). Contracts see it as its octets.
#[derive(Drop)]
pub struct Key {
    octets: Vec<u8>,
    /// It has taken the block of the inner hash.
    inner: Sha256,
    /// It has taken the block of the outer hash.
    outer: Sha256,
}

impl Model for Key {
    ghost Value = { List ℕ };

    ghost view = { λ k. k.octets.items };

    ghost invariant = { λ k. Holds256 k.inner (xor_pad 0x36 (key_block k.octets.items))
        × Holds256 k.outer (xor_pad 0x5C (key_block k.octets.items)) };
}

impl Key {
    /// The key that has these octets. It takes no memory.
    pub fn new(octets: Vec<u8>) -> Key
        ensures { result ≡ octets.items }
    {
        let block = key_block(&octets);
        Key {
            octets,
            inner: hasher_of(block, INNER),
            outer: hasher_of(block, OUTER),
        }
    }

    /// Whether it has no octets, and so signs nothing.
    pub(crate) fn is_empty(&self) -> bool
        ensures { IsTrue result ↔ (self.now ≡ []) }
    {
        self.octets.is_empty()
    }

    /// A hasher that has taken the inner block. It is fed the text, and then given to `finish_hash`; it takes no memory.
    pub(crate) fn begin_hash(&self) -> Sha256
        ensures { Holds256 result (xor_pad 0x36 (key_block self.now)) }
    {
        self.inner.clone().unwrap()
    }

    /// The keyed hash of the text that the hasher of `begin_hash` has taken; it takes no memory.
    pub(crate) fn finish_hash(&self, inner: Sha256) -> [u8; 32]
        ensures { (text : List ℕ) → Holds256 inner (xor_pad 0x36 (key_block self.now) ++ text)
            → result ≡ hmac_of self.now text }
    {
        finish_hash(inner, self.outer.clone().unwrap())
    }
}
