// The orders that words give.
ghost use Rattle.std.specs.Prelude.{◌≡◌, option_map};
ghost use Rattle.mdoc_frame.specs.Pairs.{is_in_form};
ghost use Rattle.mdoc_program.specs.Order.{order, row};
ghost use Rattle.mdoc_program.specs.Orders.{order_seen};

use crate::Command;
use mdoc_draft::is_draft;
use mdoc_import::is_import;
use mdoc_issue::is_issue;
use mdoc_outside::Word;

// A command, and the words of its pairs, which are in the form of its row.
#[derive(Clone, Copy)]
pub(crate) struct Order<'a> {
    pub(crate) command: Command,
    pub(crate) words: &'a [Word],
}

// Whether words are in the form of a command's row.
fn is_in_row(command: Command, words: &[Word]) -> bool
    ensures { result ≡ is_in_form (row command) words.now }
{
    match command {
        Command::Draft => is_draft(words),
        Command::Issue => is_issue(words),
        Command::Import => is_import(words),
    }
}

// The order that the words give, where they are in the form of a command's row.
pub(crate) fn order_of<'a>(words: &'a [Word]) -> Option<Order<'a>>
    ensures { option_map order_seen result ≡ order words.now }
{
    let [word, words @ ..] = words else {
        return None;
    };
    let command = Command::from_word(word.as_str())?;
    if !is_in_row(command, words) {
        return None;
    }
    Some(Order { command, words })
}
