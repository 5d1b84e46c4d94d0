//! AES with a key of 256 bits (FIPS 197), and GCM over it (NIST SP 800-38D) with an IV of 96
//! bits, a tag of 128 bits and no additional data.
//!
//! The contract: each call gives what the standards' functions on lists of bytes give, in place on
//! the caller's slice. No call takes memory. Nothing is claimed of the time that a call takes, nor
//! that the cipher can't be broken.
#![tactic(auto)]

mod block;
mod cipher;
mod galois;
mod key;
pub mod laws;
mod no_match;
mod padding;
mod schedule;
mod sealing;
mod table;
mod tables;

pub use key::Key256;
pub use no_match::NoMatch;
