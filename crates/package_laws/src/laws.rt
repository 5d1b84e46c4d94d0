//! What holds of packages that are issued. Each is the contract of a function that does nothing.

ghost use Rattle.package_laws.specs.IssuedCopies.{AreIssuedSigned, ArePlannedSigned};
ghost use Rattle.package_laws.specs.IssuedStores.{IsIssuedStore, IsPlannedStore};

/// A package that was issued by a spec which was read is a store within the limits of the form, and is read: one document
/// with the type of the spec and as many copies as it asks for, each with the spec's elements as its items. It is so by
/// the plan, whatever devices told and dice dealt, and so for each call that issued one.
pub fn issued_package_is_a_store()
    ensures plan { IsPlannedStore }
    ensures call { IsIssuedStore }
{}

/// In each copy of such a package the issuer's signature has a security object with the type and the moments of the spec,
/// and the object is made from the items of the copy: each digest of the object is that of one of them, and each of them
/// has its digest there (ISO/IEC 18013-5, 9.1.2.4).
pub fn objects_of_a_package_are_made_from_its_items()
    ensures plan { ArePlannedSigned }
    ensures call { AreIssuedSigned }
{}
