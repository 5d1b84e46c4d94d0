// Messages cut into pieces.
use ble_fragments::cut;
use std::alloc::Global;

// A message and the size of fragments, and the fragments; all bytes in hexadecimal digits.
const CUTS: [&str; 7] = [
    "0102030405060708 5 0101020304 0005060708",
    "0102030405060708 4 01010203 01040506 000708",
    "0102 2 0101 0002",
    "0102 3 000102",
    " 2 00",
    " 512 00",
    "a16673746174757314 512 00a16673746174757314",
];

// The fragments of a message, a space before each; none of a size below 2.
fn shown(alloc: Global, message: &[u8], size: u16) -> Option<String> {
    if size < 2 {
        return None;
    }
    let mut shown = String::new(alloc);
    for piece in cut(message, size) {
        let lead = if piece.is_last { " 00" } else { " 01" };
        shown.push_str(lead).ok()?;
        shown
            .push_str(hex::encode(alloc, piece.bytes).ok()?.as_str())
            .ok()?;
    }
    Some(shown)
}

// Whether a message is cut as a line says.
fn is_cut(alloc: Global, line: &str) -> Option<bool> {
    let (digits, rest) = line.split_once(" ")?;
    let (size, _) = rest.split_once(" ")?;
    let wanted = rest.strip_prefix(size)?;
    let size = size.parse::<u16>().ok()?;
    let message = hex::decode(alloc, digits.as_bytes()).ok()?;
    Some(shown(alloc, &message, size)?.as_str() == wanted)
}

#[test]
fn pieces_of_messages(rt: HostRuntime) {
    for line in CUTS {
        assert!(rt; is_cut(rt.alloc(), line) == Some(true), "{line}");
    }
}
