//! Views of CBOR (RFC 8949), borrowed from the bytes that spell them, with no memory taken.
//!
//! The one contract: a view is the tree that its bytes spell, and there is none where bytes spell
//! no tree. A partial view is of an item as far as its bytes are spelled, whole or not.
#![tactic(auto)]

mod cbor_fault;
mod cbor_kind;
mod doubled;
mod heads;
mod items;
mod key;
mod laws;
mod pairs;
mod partial_items;
mod partial_pairs;
mod partial_view;
mod sharing;
mod stop;
mod view;
mod walk;

pub use cbor_fault::CborFault;
pub use cbor_kind::CborKind;
pub use doubled::Doubled;
pub use items::Items;
pub use key::Key;
pub use laws::{
    faultless_is_item, first_fault, front_item_is_whole, item_is_whole, no_prefix, one_tree,
    partial_item_stands, reads_spelled, same_first_fault, shortest_least, shortest_spells,
    whole_item_parts, whole_partial_parts, within_within,
};
pub use pairs::Pairs;
pub use partial_items::PartialItems;
pub use partial_pairs::PartialPairs;
pub use partial_view::PartialView;
pub use sharing::types_are_send_and_sync;
pub use view::{ENCODED, View};
