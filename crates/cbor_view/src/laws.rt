//! Laws of spellings (RFC 8949, section 3). Each is the contract of a function that does nothing.

ghost use Rattle.std.specs.Prelude.{◌≡◌, ◌↔◌, ℕ, ◌≤◌, List, [], ◌∷◌, ◌++◌, length, map, take, Some, option_map, Ok, Err};
ghost use Rattle.cbor_view.specs.declared.cbor_kind.CborKind.TheVariants.{Trailing};
ghost use Rattle.cbor_view.specs.declared.cbor_fault.CborFault.{CborFault};
ghost use Rattle.cbor_view.specs.Tree.{Tree, levels};
ghost use Rattle.cbor_view.specs.Spelling.{AreBytes, Spells, Fits};
ghost use Rattle.cbor_view.specs.Shortest.{shortest};
ghost use Rattle.cbor_view.specs.Reading.{reads};
ghost use Rattle.cbor_view.specs.FirstFault.{IsFirstFault, IsFaultless, IsItem};
ghost use Rattle.cbor_view.specs.Parts.{Part, LiesIn, items_in, pairs_in, tag_in};
ghost use Rattle.cbor_view.specs.PartialItem.{PartialItem, whole, both_whole, tagged_whole, front_item, fault_in, partial_items, partial_pairs, partial_tag};
ghost use Rattle.cbor_view.specs.PartialSpelling.{Stands, IsMadeOf, keys_and_values};

/// Bytes spell at most one tree.
pub fn one_tree()
    ensures { (bytes : List ℕ) (t u : Tree) → Spells bytes t → Spells bytes u → t ≡ u }
{}

/// No spelling is a proper prefix of another.
pub fn no_prefix()
    ensures { (xs ys : List ℕ) (t u : Tree) → Spells xs t → Spells (xs ++ ys) u → ys ≡ [] }
{}

/// The reading of bytes gives a tree exactly where they spell it.
pub fn reads_spelled()
    ensures { (bytes : List ℕ) (t : Tree) → AreBytes bytes → (reads bytes ≡ Ok t) ↔ Spells bytes t }
{}

/// A reading tells the first fault of bytes: of all their faults the one at the least place, and there
/// the first in the order of `CborKind`.
pub fn first_fault()
    ensures { (bytes : List ℕ) (fault : CborFault) → AreBytes bytes → (reads bytes ≡ Err fault) ↔ IsFirstFault bytes fault }
{}

/// Bytes have no fault exactly where they are one item.
pub fn faultless_is_item()
    ensures { (bytes : List ℕ) → AreBytes bytes → IsFaultless bytes ↔ IsItem bytes }
{}

/// The shortest spelling of a tree (RFC 8949, section 4.2.1) spells it.
pub fn shortest_spells()
    ensures { (t : Tree) → Fits t → levels t ≤ 32 → Spells (shortest t) t }
{}

/// A tree that is spelled fits, and no spelling of it has fewer bytes than the shortest.
pub fn shortest_least()
    ensures fits { (xs : List ℕ) (t : Tree) → Spells xs t → Fits t }
    ensures least { (xs : List ℕ) (t : Tree) → Spells xs t → length (shortest t) ≤ length xs }
{}

/// A part of a part of an item stands within the item.
pub fn within_within()
    ensures { (a b c : Part) → LiesIn a b → LiesIn b c → LiesIn a c }
{}

/// The item at the front of bytes that are one item is that item, whole.
pub fn item_is_whole()
    ensures { (bytes : List ℕ) (t : Tree) → reads bytes ≡ Ok t → front_item bytes ≡ whole (record { at = 0; bytes = bytes }) }
{}

/// The first fault of bytes is the one of the item at their front, but for bytes after the item.
pub fn same_first_fault()
    ensures { (bytes : List ℕ) (fault : CborFault) → AreBytes bytes → reads bytes ≡ Err fault → (fault.kind ≡ Trailing → ⊥) → fault_in (front_item bytes) ≡ Some fault }
{}

/// The item at the front of bytes that go on after it is whole.
pub fn front_item_is_whole()
    ensures { (bytes : List ℕ) (fault : CborFault) → reads bytes ≡ Err fault → fault.kind ≡ Trailing → front_item bytes ≡ whole (record { at = 0; bytes = take fault.at bytes }) }
{}

/// What a partial item tells of a file stands in it: what is whole is spelled, part after part, each at
/// its place, and its fault stands at its place. No other partial item stands there.
pub fn partial_item_stands()
    ensures stands { (bytes : List ℕ) → AreBytes bytes → Stands (front_item bytes) 0 (record { at = 0; bytes = bytes }) }
    ensures only { (bytes : List ℕ) (item : PartialItem) → Stands item 0 (record { at = 0; bytes = bytes }) → item ≡ front_item bytes }
{}

/// The parts of a whole item, by `items_in`, `pairs_in` and `tag_in`, of which the contracts of views
/// speak, are its head and these parts in a row, and nothing else.
pub fn whole_item_parts()
    ensures items { (p : Part) (t : Tree) (items : List Part) → Spells p.bytes t → items_in p ≡ Some items → IsMadeOf 4 (length items) items p }
    ensures pairs { (p : Part) (t : Tree) (entries : List (Part × Part)) → Spells p.bytes t → pairs_in p ≡ Some entries → IsMadeOf 5 (length entries) (keys_and_values entries) p }
    ensures tag { (p q : Part) (t : Tree) (n : ℕ) → Spells p.bytes t → tag_in p ≡ Some (n, q) → IsMadeOf 6 n (q ∷ []) p }
{}

/// The parts of a partial item that is whole are those of its view.
pub fn whole_partial_parts()
    ensures items { (p : Part) → partial_items (whole p) ≡ option_map (map whole) (items_in p) }
    ensures pairs { (p : Part) → partial_pairs (whole p) ≡ option_map (map both_whole) (pairs_in p) }
    ensures tag { (p : Part) → partial_tag (whole p) ≡ option_map tagged_whole (tag_in p) }
{}
