// What holds of the definitions alone.
ghost use Rattle.std.specs.Prelude.{◌≡◌, ℕ, List, Some, [], is_none, is_some};
ghost use Rattle.cbor_view.specs.Spelling.{AreBytes};
ghost use Rattle.doc_store.specs.Agreement.{SamePlaces, SamePresence};
ghost use Rattle.doc_store.specs.Faults.{faults, store_fault};
ghost use Rattle.doc_store.specs.FirstOf.{IsFirst};
ghost use Rattle.doc_store.specs.Store.{store};
ghost use Rattle.doc_store.specs.declared.first_fault.Fault.{Fault};
ghost use Rattle.doc_store.specs.declared.laws.TheConstants.{EMPTY_STORE};

/// The store with no document, in its shortest spelling.
pub const EMPTY_STORE: [u8; 21] = [
    0xa2, 0x67, 0x76, 0x65, 0x72, 0x73, 0x69, 0x6f, 0x6e, 0x01, 0x69, 0x64, 0x6f, 0x63, 0x75, 0x6d,
    0x65, 0x6e, 0x74, 0x73, 0x80,
];

/// The law that `EMPTY_STORE` spells the store with no document.
#[tactic(auto, using(crate::proofs::StoreLemmas::store_empty))]
pub fn empty_store()
    ensures { store EMPTY_STORE ≡ Some [] }
{}

/// The law that stores which agree show the same places.
pub fn same_places()
    ensures { SamePlaces }
{}

/// The law that stores which agree hold an item at the same places, whatever it says.
pub fn same_presence()
    ensures { SamePresence }
{}

/// The law that a file is a store exactly where it has no fault.
#[tactic(auto, using(crate::proofs::FaultLaw::store_iff_no_fault))]
pub fn store_iff_no_fault()
    ensures { (bytes : List ℕ) → AreBytes bytes → is_none (store_fault bytes) ≡ is_some (store bytes) }
{}

/// The law that the first fault of a file is one of its faults, and that none of them stands before it:
/// at a place before it, or at its place with a check that comes earlier.
pub fn first_of_all()
    ensures { (bytes : List ℕ) (f : Fault) → store_fault bytes ≡ Some f → IsFirst f (faults bytes) }
{}
