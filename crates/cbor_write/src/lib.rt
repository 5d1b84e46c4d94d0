//! Writing of CBOR (RFC 8949), piece by piece into one buffer.
//!
//! The one contract: each call appends exactly the shortest spelling of what it is given, and where memory
//! is wanted nothing is appended.
#![tactic(auto)]

mod build;
mod count;
mod laws;

pub use build::Build;
pub use count::count_of;
pub use laws::written_is_read;
