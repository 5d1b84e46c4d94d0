//! What holds of the definitions alone. Each is the contract of a function that does nothing.

ghost use Rattle.std.specs.Prelude.{List};
ghost use Rattle.mso_digests.specs.MadeFrom.{AreDigestsOf, MadeFrom, Placed};
ghost use Rattle.mso_digests.specs.Written.{Draft, drafted};

/// An object whose digests are those of items, in order, is made from these items: each of its digests is that of
/// one of them, and each of them has its digest there (ISO/IEC 18013-5, 9.1.2.4).
pub fn object_is_made_from_its_items()
    ensures { (draft : Draft) (items : List Placed) → AreDigestsOf draft.digests items → MadeFrom (drafted draft) items }
{}
