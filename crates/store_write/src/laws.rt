//! What holds of stores. Each is the contract of a function that does nothing.

ghost use Rattle.store_write.specs.Nested.{AreStoredNested, IsHeldNested, IsPlacedNested};
ghost use Rattle.store_write.specs.Storable.{AreReadAgain, AreWrittenRead};

/// The parts of a store that is read are nested no deeper than the form leaves room for: an issuer's signature has at most
/// 27 levels, and an item at most 25 and is read as an issuer-signed item.
pub fn stored_parts_are_nested()
    ensures stored { AreStoredNested }
    ensures placed { IsPlacedNested }
    ensures held { IsHeldNested }
{}

/// A store that was written of documents within the limits is read as these documents, with their copies and the items of
/// these by their namespaces.
pub fn written_store_is_read()
    ensures { AreWrittenRead }
{}

/// A store that was read is within these limits, and its items stand by their namespaces: written again, it is read as the
/// same.
pub fn read_store_is_storable()
    ensures { AreReadAgain }
{}
