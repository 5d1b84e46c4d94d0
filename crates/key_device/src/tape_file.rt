// A tape file: a line for each exchange.
ghost use Rattle.std.specs.Prelude.{◌≡◌, ◌<◌, ◌==◌, position, [], ◌∷◌, length, IfOk, IfSome, MatchOption, MatchResult, true};
ghost use Rattle.std.specs.List.{list_all};
ghost use Rattle.key_device.specs.Tape.{is_exchange};
ghost use Rattle.key_device.specs.TapeFile.{tape_parts, tape_of, Refuses};

use crate::tape_line::line_exchange;
use crate::{Exchange, TapeFault};
use std::alloc::Global;
use std::collections::VecDeque;

// The place of the first line feed.
fn line_end(text: &[u8]) -> Option<usize>
    ensures first { result ≡ position (λ byte. byte == 10) text.now }
    ensures within { IfSome result (λ place. place < length text.now) }
{
    text.iter().position(|byte| *byte == b'\n')
}

// The first line, without its line feed, and what stands after it; `None` where no line ends.
fn first_line(text: &[u8]) -> Option<(&[u8], &[u8])>
    ensures parts { MatchOption result (tape_parts text.now ≡ text.now ∷ [])
        (λ found. tape_parts text.now ≡ found.0.now ∷ tape_parts found.1.now) }
    ensures shorter { IfSome result (λ found. length found.1.now < length text.now) }
{
    match line_end(text) {
        Some(end) => Some((&text[..end], &text[end + 1..])),
        None => None,
    }
}

/// The exchanges of a tape file.
pub(crate) fn read_exchanges(alloc: Global, text: &[u8]) -> Result<VecDeque<Exchange>, TapeFault>
    ensures read { MatchResult result
        (λ tape. tape_of text.now ≡ Ok tape.items) (Refuses (tape_of text.now)) }
    ensures exchanges { IfOk result (λ tape. list_all is_exchange tape.items ≡ true) }
{
    let _len = text.len();
    let mut tape = VecDeque::new(alloc);
    let mut number: u64 = 1;
    let mut left = text;
    while let Some((line, behind)) = first_line(left) {
        match line_exchange(alloc, line)? {
            Some(exchange) => tape.push_back(exchange)?,
            None => return Err(TapeFault::Line(number)),
        }
        number += 1;
        left = behind;
    }
    if left.is_empty() {
        Ok(tape)
    } else {
        Err(TapeFault::Line(number))
    }
}
