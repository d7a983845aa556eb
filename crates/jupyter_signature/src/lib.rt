//! The signature of a Jupyter message: keys, HMAC with SHA-256, and the four parts that are signed.
//!
//! To the layer above it promises that `hmac` is HMAC of a key and a text, that `sign` gives the signature of four parts under a key,
//! and that `is_signed` tells whether a signature is that of the parts. `sign` takes memory for the text alone, and `is_signed` none.
//!
//! HMAC is that of RFC 2104 over SHA-256 of FIPS 180-4, the signature that of the Jupyter messaging page ("The Wire Protocol").
//!
//! A key has beside its octets the two hashers with which HMAC begins under it, so that no message hashes the key. That it has is no
//! clause's: the clauses speak of its octets alone.
#![tactic(auto)]

mod key;
mod keyed_hash;
mod signature;

pub use key::Key;
pub use keyed_hash::hmac;
pub use signature::{Parts, is_signed, sign};
