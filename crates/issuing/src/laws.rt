//! What holds of the definitions alone. Each is the contract of a function that does nothing.

ghost use Rattle.issuing.specs.MadeCopies.{IsMadeFromItsItems};

/// Of a spec within its ranges, whose values are bytes: whatever the device key and the salts of a copy are, of 32 bytes
/// each, the security object that is written for the copy is made from its items: each digest of the object is that of
/// one of them, and each of them has its digest there (ISO/IEC 18013-5, 9.1.2.4).
pub fn object_of_a_copy_is_made_from_its_items()
    ensures { IsMadeFromItsItems }
{}
