//! What holds of the definitions alone. Each is the contract of a function that does nothing.

ghost use Rattle.std.specs.Prelude.{◌≡◌, ◌<◌, ◌^◌, ℕ, List};
ghost use Rattle.cose_msgs.specs.Written.{IsReadAs};
ghost use Rattle.doc_response.specs.Answered.{items_map};
ghost use Rattle.doc_response.specs.Draft.{Draft};
ghost use Rattle.doc_response.specs.Response.{response};
ghost use Rattle.doc_response.specs.Written.{response_bytes};
ghost use Rattle.doc_response.specs.WrittenReads.{AreWritable, ReadsItems, status_alone};

/// A response that was written of another status than 0 is read as that status alone.
pub fn written_status_is_read()
    ensures { (draft : Draft) → draft.status < 2 ^ 64 → (draft.status ≡ 0 → ⊥) → IsReadAs response (response_bytes draft) (status_alone draft.status) }
{}

/// The items that were written of a document are read, wherever they are, by their namespaces in the order in which
/// these appear first.
pub fn written_items_are_read()
    ensures { (at : ℕ) (items : List (List ℕ × List ℕ)) → AreWritable items → ReadsItems (record { at = at; bytes = items_map items }) items }
{}
