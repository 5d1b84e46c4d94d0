//! Maps of CBOR whose keys are named by a table, or are numbers: read with their first fault, and written in the order of
//! the table.
//!
//! The one contract: what is read of a map is what is under its named keys, each of which is there once, and
//! a map that was written is read as the same.
#![tactic(auto)]

mod append;
mod find;
mod found;
mod laws;
mod map_build;
mod map_fault;
mod named_map;
mod sharing;

pub use append::{append_key, append_map_head};
pub use laws::{
    labelled_map_is_spelled, named_map_is_spelled, written_field_is_read, written_label_is_read,
};
pub use map_build::MapBuild;
pub use map_fault::MapFault;
pub use named_map::NamedMap;
pub use sharing::types_are_send_and_sync;
