//! The checks of a store file.

use crate::ItemFault;
use cbor_view::CborKind;
use mdoc_outside::{KeyName, LimitName};

/// What is wrong with a store file at the place that a fault names.
#[derive(Clone, Copy, Debug, PartialEq, Eq)]
pub enum StoreCheck {
    /// The bytes spell no CBOR there.
    Cbor(CborKind),
    /// What stands under this key is of another kind, or the key is missing from the map there.
    Field(KeyName),
    /// The version is another one than 1.
    Version,
    /// A key of the form, a namespace, a document's type or an item's name that stands there a second time.
    Doubled,
    /// The stored item there is none.
    Item(ItemFault),
    /// This limit is exceeded there, by this number.
    Limit(LimitName, u64),
}
