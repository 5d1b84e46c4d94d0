//! How deep the parts of a store are nested.

ghost use Rattle.std.specs.List.{AllByRecursion};
ghost use Rattle.cbor_view.specs.Spelling.{AreBytes};
ghost use Rattle.doc_store.specs.StoreView.{documents_in};
ghost use Rattle.store_write.specs.Nested.{IsNestedDocument};

use doc_store::Store;
use store_write::stored_parts_are_nested;

/// A slice holds bytes. It does nothing.
fn are_bytes(bytes: &[u8])
    ensures { AreBytes bytes.now }
{}

/// The parts of a store are nested no deeper than the form of its file leaves room for, by a law of stores. Nothing is
/// looked at: the calls stand for the proof's sake.
pub(crate) fn parts_are_nested(store: &Store<'_>)
    ensures { AllByRecursion IsNestedDocument (documents_in store.now) }
{
    are_bytes(store.bytes());
    stored_parts_are_nested();
}
