// The words of `draft`.
ghost use Rattle.std.specs.Prelude.{◌≡◌};
ghost use Rattle.mdoc_frame.specs.Pairs.{is_in_form};
ghost use Rattle.mdoc_draft.specs.Draft.{draft_row};

use mdoc_frame::{Pair, Role, is_in_form};
use mdoc_outside::Word;

/// Whether words are in the form of the row of `draft`.
pub fn is_draft(words: &[Word]) -> bool
    ensures { result ≡ is_in_form draft_row words.now }
{
    let pairs = [
        Pair::needed_file("--store", Role::Store),
        Pair::needed_file("--wishes", Role::Wishes),
        Pair::needed_file("--rules", Role::Rules),
    ];
    is_in_form(&pairs, words)
}
