//! Laws of elements (X.690, 8.1 and 10.1). Each is the contract of a function that does nothing.

ghost use Rattle.std.specs.Prelude.{◌≡◌, ℕ, ◌<◌, ◌^◌, List, [], ◌++◌, length, Result, Ok};
ghost use Rattle.der_view.specs.declared.der_fault.DerFault.{DerFault};
ghost use Rattle.der_view.specs.Element.{IsTag, element, IsElement};
ghost use Rattle.der_view.specs.Fault.{IsFault};
ghost use Rattle.der_view.specs.Reading.{reads};
ghost use Rattle.der_view.specs.Parts.{Part, AreParts};

/// The spelling of a tag and a body reads as that tag and that body.
pub fn element_reads()
    ensures { (tag : ℕ) (body : List ℕ) → IsTag tag → length body < 2 ^ 32 → reads (element tag body) ≡ Ok (tag, body) }
{}

/// Bytes spell at most one tag and body.
pub fn one_element()
    ensures tag { (bytes : List ℕ) (t u : ℕ) (b c : List ℕ) → IsElement bytes t b → IsElement bytes u c → t ≡ u }
    ensures body { (bytes : List ℕ) (t u : ℕ) (b c : List ℕ) → IsElement bytes t b → IsElement bytes u c → b ≡ c }
{}

/// No element is a proper prefix of another.
pub fn no_prefix()
    ensures { (xs ys : List ℕ) (t u : ℕ) (b c : List ℕ) → IsElement xs t b → IsElement (xs ++ ys) u c → ys ≡ [] }
{}

/// Bytes have at most one first fault, and an element has none.
pub fn one_fault()
    ensures one { (bytes : List ℕ) (f g : DerFault) → IsFault bytes f → IsFault bytes g → f ≡ g }
    ensures none { (bytes : List ℕ) (t : ℕ) (b : List ℕ) (f : DerFault) → IsElement bytes t b → IsFault bytes f → ⊥ }
{}

/// Bytes have at most one list of parts.
pub fn one_list()
    ensures { (p : Part) (xs ys : List (Result Part DerFault)) → AreParts p xs → AreParts p ys → xs ≡ ys }
{}
