// The lines of a line file.
ghost use Rattle.std.specs.Prelude.{◌≡◌, ◌+◌, ◌<◌, ◌^◌, length};
ghost use Rattle.mdoc_outside.specs.Lines.{file_lines};

use crate::FileLine;
use crate::lines::{first_line, is_kept, trimmed};

/// The lines of a text that are neither blank nor comments, in order.
#[derive(Drop)]
pub struct FileLines<'a> {
    pub(crate) rest: &'a [u8],
    pub(crate) consumed: u64,
    ghost in_range: { consumed + length rest.now < 2 ^ 64 },
}

impl<'a> Iterator for FileLines<'a> {
    ghost use Rattle.std.specs.Iterator.{YieldsFirstBy, item_count};
    ghost use Rattle.mdoc_outside.specs.FileLine.{line};
    ghost use Rattle.mdoc_outside.specs.FileLines.{lines_left};

    type Item = FileLine<'a>;

    ghost next_gives = { YieldsFirstBy line lines_left };

    ghost remaining = { item_count lines_left };

    #[tactic(auto, using(crate::proofs::LineSteps::line_steps))]
    fn next(&mut self) -> Option<FileLine<'a>> {
        while let Some((line, rest)) = first_line(self.rest) {
            *self = FileLines {
                rest,
                consumed: self.consumed + 1,
            };
            let bytes = trimmed(line);
            if is_kept(bytes) {
                return Some(FileLine {
                    number: self.consumed,
                    bytes,
                });
            }
        }
        None
    }
}
