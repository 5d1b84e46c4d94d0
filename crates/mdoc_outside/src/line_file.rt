// The lines of a line file, from its start.
ghost use Rattle.std.specs.Prelude.{◌≡◌};
ghost use Rattle.mdoc_outside.specs.FileLines.{lines_left};
ghost use Rattle.mdoc_outside.specs.Lines.{file_lines};

use crate::FileLines;

/// The lines of a line file. A line ends with a line feed, which the last one needs not have; a
/// carriage return before the line feed is dropped, and so are the spaces at both ends. Blank
/// lines, and lines that begin with `#`, are ignored.
pub fn lines_of<'a>(text: &'a [u8]) -> FileLines<'a>
    ensures { lines_left result ≡ file_lines text.now }
{
    let _len = text.len();
    FileLines {
        rest: text,
        consumed: 0,
    }
}
