//! What holds of the definitions alone: the contract of a function that does nothing.

ghost use Rattle.verdict_model.specs.PackageLaws.{IsCovered};

/// Where no check of an item fails, the security object of the copy has the digest of each (ISO/IEC 18013-5, 9.1.2.4).
pub fn accepted_copy_is_covered()
    ensures { IsCovered }
{}
