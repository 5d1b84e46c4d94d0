// The words of `import`.
ghost use Rattle.std.specs.Prelude.{◌≡◌};
ghost use Rattle.mdoc_frame.specs.Pairs.{is_in_form};
ghost use Rattle.mdoc_import.specs.Import.{import_row};

use mdoc_frame::{Pair, Role, is_in_form};
use mdoc_outside::Word;

// The last second of the year 9999, in seconds since 1970.
const LAST_MOMENT: u64 = 253_402_300_799;

/// Whether words are in the form of the row of `import`.
pub fn is_import(words: &[Word]) -> bool
    ensures { result ≡ is_in_form import_row words.now }
{
    let pairs = [
        Pair::needed_file("--package", Role::Package),
        Pair::needed_file("--roots", Role::Roots),
        Pair::file_or_none("--store", Role::Store),
        Pair::number("--moment", 0, LAST_MOMENT),
    ];
    is_in_form(&pairs, words)
}
