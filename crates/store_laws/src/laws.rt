//! What holds of stores. Each is the contract of a function that does nothing.

ghost use Rattle.store_laws.specs.StoreLies.{AreStoredPartsThere};

/// What is read of a store stands in its file, each part at its place: the documents with their types, their copies, the
/// issuer's signatures, the names of the namespaces, and the items with their fields.
pub fn stored_parts_stand_in_bytes()
    ensures { AreStoredPartsThere }
{}
