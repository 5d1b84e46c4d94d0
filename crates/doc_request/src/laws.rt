//! What holds of the definitions alone. Each is the contract of a function that does nothing.

ghost use Rattle.std.specs.Prelude.{◌≡◌, ℕ, List, Ok};
ghost use Rattle.cbor_view.specs.Parts.{Part, cbor};
ghost use Rattle.doc_request.specs.Asked.{asked, asked_of, request};

/// A text that spells one item asks for what is read of that item as a request.
pub fn text_asks_for_its_item()
    ensures { (text : List ℕ) (item : Part) → cbor text ≡ Ok item → asked text ≡ asked_of (request item) }
{}
