// What holds of the definitions alone.
ghost use Rattle.std.specs.Prelude.{◌≡◌, ◌≤◌, Ok};
ghost use Rattle.cbor_view.specs.Reading.{reads};
ghost use Rattle.cbor_view.specs.Shortest.{shortest};
ghost use Rattle.cbor_view.specs.Spelling.{Fits};
ghost use Rattle.cbor_view.specs.Tree.{Tree, levels};

/// The law that what is written is read back: the shortest spelling of a tree within the profile, whose parts the
/// calls of `Build` append, is read as that tree (RFC 8949, sections 3 and 4.2.1).
pub fn written_is_read()
    ensures { (t : Tree) → Fits t → levels t ≤ 32 → reads (shortest t) ≡ Ok t }
{}
