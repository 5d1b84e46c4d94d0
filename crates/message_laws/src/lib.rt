//! Laws of COSE messages, of keys (RFC 9052) and of issuer-signed items (ISO/IEC 18013-5, 8.3.2.1.2.2), alone.
//!
//! The one contract: what is read of them stands in the bytes that they were read from, each part at its place.
#![tactic(auto)]

mod laws;

pub use laws::{
    code_stands_in_bytes, item_stands_in_bytes, key_stands_in_bytes, signature_stands_in_bytes,
    whole_stands_in_bytes,
};
