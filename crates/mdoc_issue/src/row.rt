// The words of `issue`.
ghost use Rattle.std.specs.Prelude.{◌≡◌};
ghost use Rattle.mdoc_frame.specs.Pairs.{is_in_form};
ghost use Rattle.mdoc_issue.specs.Issue.{issue_row};

use mdoc_frame::{Pair, Role, is_in_form};
use mdoc_outside::Word;

/// Whether words are in the form of the row of `issue`.
pub fn is_issue(words: &[Word]) -> bool
    ensures { result ≡ is_in_form issue_row words.now }
{
    let pairs = [
        Pair::needed_file("--spec", Role::Spec),
        Pair::needed_text("--out"),
    ];
    is_in_form(&pairs, words)
}
