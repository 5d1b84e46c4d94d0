// One line of a line file.
ghost use Rattle.std.specs.Prelude.{◌≡◌, ℕ, List, IfOk, map};
ghost use Rattle.std.specs.Borrow.{Bor};
ghost use Rattle.mdoc_outside.specs.FileLine.{line};
ghost use Rattle.mdoc_outside.specs.Lines.{words};
ghost use Rattle.mdoc_outside.specs.Words.{words_left};

use crate::Words;
use std::alloc::{AllocError, Global};

/// A line of a line file that is neither blank nor a comment.
#[derive(Clone, Copy)]
pub struct FileLine<'a> {
    pub(crate) number: u64,
    pub(crate) bytes: &'a [u8],
}

impl<'a> FileLine<'a> {
    /// The line's number, all lines of the file being counted from 1.
    pub fn number(&self) -> u64
        ensures { result ≡ (line self.now).number }
    {
        self.number
    }

    /// The line's bytes, without its end and without the spaces at both ends.
    pub fn bytes(&self) -> &'a [u8]
        ensures { result.now ≡ (line self.now).bytes }
    {
        self.bytes
    }

    /// The line's words, which one or more spaces separate.
    pub fn words(&self) -> Words<'a>
        ensures { words_left result ≡ words (line self.now).bytes }
    {
        Words { rest: self.bytes }
    }

    /// The line's words as a list, in order.
    pub fn word_list(&self, alloc: Global) -> Result<Vec<&'a [u8]>, AllocError>
        ensures { IfOk result (λ list. map (λ (word : Bor (List ℕ)). word.now) list.items ≡ words (line self.now).bytes) }
    {
        self.words().collect(alloc)
    }
}
