//! What holds of the definitions alone. Each is the contract of a function that does nothing.

ghost use Rattle.std.specs.Prelude.{◌≡◌, ℕ, ℤ, ◌<◌, ◌^◌, length};
ghost use Rattle.mdoc_outside.specs.declared.key_name.KeyName.{KeyName};
ghost use Rattle.cbor_view.specs.Label.{only_of};
ghost use Rattle.cbor_view.specs.Shortest.{map_bytes};
ghost use Rattle.cbor_maps.specs.Labels.{LabelledFields, labelled, labelled_map, labelled_values, spelled_labels, values_labelled};
ghost use Rattle.cbor_maps.specs.Reading.{entry};
ghost use Rattle.cbor_maps.specs.Writing.{Fields, named_map, spelled_keys, with_values};
ghost use Rattle.cbor_maps.specs.WrittenReads.{AreItems, AreLabelled, bytes_under, values_named};

/// A map is written as the shortest head of a map (RFC 8949, section 4.2.1), and then each key that has a
/// value with that value.
pub fn named_map_is_spelled()
    ensures { (fields : Fields) → named_map fields ≡ map_bytes (spelled_keys (with_values fields)) }
{}

/// Of a map that was written is read, under each name and wherever the map is, what was written under it:
/// the one value, nothing, or that there are more.
pub fn written_field_is_read()
    ensures { (at : ℕ) (fields : Fields) (name : KeyName) → AreItems (with_values fields) → length (with_values fields) < 2 ^ 32 → bytes_under (entry (record { at = at; bytes = named_map fields }) name) ≡ only_of (values_named name (with_values fields)) }
{}

/// The same of a map whose keys are numbers.
pub fn labelled_map_is_spelled()
    ensures { (fields : LabelledFields) → labelled_map fields ≡ map_bytes (spelled_labels (labelled_values fields)) }
{}

/// Of such a map is read, under each number, what was written under it.
pub fn written_label_is_read()
    ensures { (at : ℕ) (fields : LabelledFields) (number : ℤ) → AreLabelled (labelled_values fields) → length (labelled_values fields) < 2 ^ 32 → bytes_under (labelled (record { at = at; bytes = labelled_map fields }) number) ≡ only_of (values_labelled number (labelled_values fields)) }
{}
