//! Certificates of X.509 in the words of RFC 5280, 4.1, as relations over elements and the lists of their
//! parts. Its one contract: the laws that the reading of certificates, as `cert_view` defines it, gives
//! the fields of bytes exactly where these relations hold.
#![tactic(auto)]

mod laws;

pub use laws::{
    faultless_is_certificate, faultless_parts, fields_stand_in_bytes, first_fault, is_certificate,
    is_layout, parts_stand_in_bytes,
};
