//! What holds of the definitions alone. Each is the contract of a function that does nothing.

ghost use Rattle.std.specs.Prelude.{◌≡◌, ℕ, List, None};
ghost use Rattle.std.specs.List.Sorted.{IsPermutation};
ghost use Rattle.cbor_view.specs.Parts.{Part};
ghost use Rattle.doc_request.specs.Asked.{request_fault};
ghost use Rattle.doc_request.specs.Draft.{IsRequest};
ghost use Rattle.doc_request.specs.Written.{AreAuthentications};
ghost use Rattle.doc_request.specs.declared.doc_draft.DocDraft.{DocDraft};
ghost use Rattle.doc_request.specs.declared.wish_draft.WishDraft.{WishDraft};
ghost use Rattle.request_laws.specs.Confirmed.{AreNamesConfirmed};
ghost use Rattle.request_laws.specs.ReadBack.{IsReadBack, grouped};
ghost use Rattle.request_laws.specs.Opened.{IsOpened};

/// The request that is written of a draft asks for the documents of the draft: their types, the items as they are
/// written, the authentications that were given, and the wishes by their namespaces.
pub fn written_request_is_read()
    ensures { (documents : List DocDraft) (auths : List (List ℕ)) → IsRequest documents → AreAuthentications documents auths → IsReadBack documents auths }
{}

/// Wishes by their namespaces are these wishes in another order.
pub fn every_wish_is_kept()
    ensures { (wishes : List WishDraft) → IsPermutation wishes (grouped wishes) }
{}

/// Where nothing is wrong with a request, each of its documents is read, and in it each element of each namespace.
pub fn every_document_is_read()
    ensures { (item : Part) → request_fault item ≡ None → IsOpened item }
{}

/// A reader is named only by a trusted root of its issuer's name to which the device said yes, while the moment lies in
/// both validities, and once its own signature over what it asks for in this session was confirmed.
pub fn reader_name_is_confirmed()
    ensures { AreNamesConfirmed }
{}
