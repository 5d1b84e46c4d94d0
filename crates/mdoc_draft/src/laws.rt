// What holds of the definitions alone.
ghost use Rattle.mdoc_draft.specs.Cases.{AbsentAlike, DeniedAlike, OneReleased};
ghost use Rattle.mdoc_draft.specs.Exact.{EachMissingOnce, EachReleasedOnce};
ghost use Rattle.mdoc_draft.specs.Exact.{OnlyMissing, OnlyReleased};
ghost use Rattle.mdoc_draft.specs.ReleasedExactly.{AgreementIsLeast, CoreIsReleased, PlacesAreOfCore};

/// The law of a worked case: over the empty store a document that is asked for is answered with an error.
pub fn absent_document()
    ensures { AbsentAlike }
{}

/// The law of a worked case: an item that is held and allowed is given as it is stored, and a wish for an
/// element that isn't held is reported with error code 0.
pub fn one_released()
    ensures { OneReleased }
{}

/// The law of a worked case: an element that is held and denied is reported as one that isn't held.
pub fn denied_is_as_absent()
    ensures { DeniedAlike }
{}

/// The law that nothing but what is released stands in an answer: each item that is written is held
/// by the copy that is shown, under its namespace and for a wish that the rules allow.
pub fn only_released()
    ensures { OnlyReleased }
{}

/// The law that each item that is released for a wish is written once, where no two wishes are for
/// one element.
pub fn each_released_once()
    ensures { EachReleasedOnce }
{}

/// The law that nothing else is reported as missing: each name that is written as missing is that of
/// a wish that the rules deny, or whose element the copy that is shown doesn't hold.
pub fn only_missing()
    ensures { OnlyMissing }
{}

/// The law that the name of each such wish is written as missing once, where no two wishes are for
/// one element.
pub fn each_missing_once()
    ensures { EachMissingOnce }
{}

/// The laws that the items of the core are those that the rules release, and that the released places are those of these
/// items, one by one and no others.
pub fn released_exactly()
    ensures items { CoreIsReleased }
    ensures places { PlacesAreOfCore }
{}

/// The law that agreement is as weak as it can be: stores of equal outlines agree up to the released places exactly where
/// their cores have equal items.
#[tactic(auto, using(crate::proofs::ReleasedLemmas::agreement_is_least))]
pub fn agreement_is_least()
    ensures { AgreementIsLeast }
{}
