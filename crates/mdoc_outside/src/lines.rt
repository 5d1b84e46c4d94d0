// The parts of a text: lines, and a line without the spaces around it.
ghost use Rattle.std.specs.Prelude.{◌≡◌, ◌==◌, ◌<◌, [], ◌∷◌, length, position, IfSome, MatchOption};
ghost use Rattle.std.specs.List.{slice_split};
ghost use Rattle.std.specs.Str.Lines.{lines, strip_carriage_return};
ghost use Rattle.mdoc_outside.specs.Lines.{after_spaces, before_spaces, trimmed, is_kept};

// The place of the first such byte.
fn place_of(bytes: &[u8], byte: u8) -> Option<usize>
    ensures first { result ≡ position (λ b. b == byte) bytes.now }
    ensures within { IfSome result (λ place. place < length bytes.now) }
{
    bytes.iter().position(|b| *b == byte)
}

// What stands before the first such byte and what stands after it.
pub(crate) fn split_once(bytes: &[u8], separator: u8) -> Option<(&[u8], &[u8])>
    ensures parts { let parts = slice_split (λ b. b == separator) in
        MatchOption result (parts bytes.now ≡ bytes.now ∷ [])
        (λ found. parts bytes.now ≡ found.0.now ∷ parts found.1.now) }
    ensures shorter { IfSome result (λ found. length found.1.now < length bytes.now) }
{
    match place_of(bytes, separator) {
        Some(end) => Some((&bytes[..end], &bytes[end + 1..])),
        None => None,
    }
}

// The line without the one carriage return at its end.
fn without_return(line: &[u8]) -> &[u8]
    ensures { result.now ≡ strip_carriage_return line.now }
{
    match line {
        [before @ .., b'\r'] => before,
        _ => line,
    }
}

// The first line of a text and what stands after it.
pub(crate) fn first_line(text: &[u8]) -> Option<(&[u8], &[u8])>
    ensures first { MatchOption result (lines text.now ≡ [])
        (λ found. lines text.now ≡ found.0.now ∷ lines found.1.now) }
    ensures shorter { IfSome result (λ found. length found.1.now < length text.now) }
{
    if text.is_empty() {
        return None;
    }
    match split_once(text, b'\n') {
        Some((line, rest)) => Some((without_return(line), rest)),
        None => Some((text, &[])),
    }
}

/// The number of all lines of a text, blank lines and comments too.
pub fn line_count(text: &[u8]) -> u64
    ensures { result ≡ length (lines text.now) }
{
    let _len = text.len();
    let mut count = 0;
    let mut left = text;
    while let Some((_, rest)) = first_line(left) {
        count += 1;
        left = rest;
    }
    count
}

// The bytes without the spaces in front.
pub(crate) fn after_spaces(bytes: &[u8]) -> &[u8]
    ensures { result.now ≡ after_spaces bytes.now }
{
    let mut left = bytes;
    while let [b' ', rest @ ..] = left {
        left = rest;
    }
    left
}

// The bytes without the spaces at its end.
fn before_spaces(bytes: &[u8]) -> &[u8]
    ensures { result.now ≡ before_spaces bytes.now }
{
    let mut left = bytes;
    while let [rest @ .., b' '] = left {
        left = rest;
    }
    left
}

// The bytes without the spaces at both ends.
pub(crate) fn trimmed(bytes: &[u8]) -> &[u8]
    ensures { result.now ≡ trimmed bytes.now }
{
    before_spaces(after_spaces(bytes))
}

// Whether a line is neither blank nor a comment.
pub(crate) fn is_kept(line: &[u8]) -> bool
    ensures { result ≡ is_kept line.now }
{
    match line {
        [] => false,
        [first, ..] => *first != b'#',
    }
}
