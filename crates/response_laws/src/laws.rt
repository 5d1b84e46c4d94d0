//! What holds of the definitions alone. Each is the contract of a function that does nothing.

ghost use Rattle.std.specs.Prelude.{ℕ, ◌≡◌};
ghost use Rattle.doc_response.specs.Draft.{Draft, empty_draft};
ghost use Rattle.doc_response.specs.Written.{response_bytes};
ghost use Rattle.response_laws.specs.Calls.{DocumentKeeps, ItemKeeps, MissingKeeps, NothingKeeps};
ghost use Rattle.response_laws.specs.ReadBack.{ReadsBack};
ghost use Rattle.response_laws.specs.Writable.{HasSpellings, IsSmall};

/// A response that was written of status 0 is one item, read as the documents of which something is released, each with
/// its type, the issuer's signature as it is stored, its items by their namespaces in the order in which these appear
/// first, and the device's authentication; and as an error of code 0 for each other type. One of another status is read
/// as that status alone (`doc_response::written_status_is_read`).
pub fn written_response_is_read()
    ensures { (draft : Draft) → HasSpellings draft → IsSmall draft → draft.status ≡ 0 → ReadsBack (response_bytes draft) draft }
{}

/// Whatever the calls of a draft put together has a spelling.
pub fn calls_give_spellings()
    ensures new { (status : ℕ) → HasSpellings (empty_draft status) }
    ensures document { DocumentKeeps }
    ensures item { ItemKeeps }
    ensures missing { MissingKeeps }
    ensures nothing { NothingKeeps }
{}
