//! Laws of where the parts of a store file stand, alone.
//!
//! The one contract: what is read of a store stands in its file, each part at its place.
#![tactic(auto)]

mod laws;

pub use laws::stored_parts_stand_in_bytes;
