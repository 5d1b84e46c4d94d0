//! The lines of line files, and their words.

use mdoc_outside::{is_name, is_word, line_count, lines_of};
use std::alloc::Global;
use std::process::Abort;

// The lines that are kept of a text, each as its number, a colon, its bytes and a bar.
fn shown_lines(alloc: Global, text: &[u8]) -> Option<Vec<u8>> {
    let mut shown = Vec::new(alloc);
    for line in lines_of(text) {
        let number = line.number();
        shown
            .extend_from_slice(format!(in alloc; "{number}:").ok()?.as_bytes())
            .ok()?;
        shown.extend_from_slice(line.bytes()).ok()?;
        shown.push(b'|').ok()?;
    }
    Some(shown)
}

// The words of the lines that are kept, a bar after each.
fn shown_words(alloc: Global, text: &[u8]) -> Option<Vec<u8>> {
    let mut shown = Vec::new(alloc);
    for line in lines_of(text) {
        for word in line.words() {
            shown.extend_from_slice(word).ok()?;
            shown.push(b'|').ok()?;
        }
    }
    Some(shown)
}

// Texts, the lines that are kept, as above, and how many lines there are.
const LINES: [(&[u8], &[u8], u64); 19] = [
    (b"", b"", 0),
    (b"\n", b"", 1),
    (b"a", b"1:a|", 1),
    (b"a\n", b"1:a|", 1),
    (b"a\nb", b"1:a|2:b|", 2),
    (b"a\n\n\nb\n", b"1:a|4:b|", 4),
    (b"# any \xff\x00\t bytes\r\na\n", b"2:a|", 2),
    (b"  # behind spaces\na\n", b"2:a|", 2),
    (b"a # not a comment\n", b"1:a # not a comment|", 1),
    (b"\t# behind a tab\n", b"1:\t# behind a tab|", 1),
    (b"a\r\nb\r\n", b"1:a|2:b|", 2),
    (b"\r\n\n \n \r\na\n", b"5:a|", 5),
    (b"a\r\r\n", b"1:a\r|", 1),
    (b"a\r", b"1:a\r|", 1),
    (b"\r", b"1:\r|", 1),
    (b"a\rb\n", b"1:a\rb|", 1),
    (b"   a  b   \r\n", b"1:a  b|", 1),
    (b" \ta\t \n", b"1:\ta\t|", 1),
    (b"a\n   ", b"1:a|", 2),
];

// Whether of a text those lines are kept, and it has so many.
fn has_lines(alloc: Global, text: &[u8], wanted: &[u8], count: u64) -> Option<bool> {
    Some(shown_lines(alloc, text)?.as_slice() == wanted && line_count(text) == count)
}

#[test]
fn lines_are_kept_by_the_grammar(rt: HostRuntime) {
    for (text, wanted, count) in &LINES {
        assert!(rt;
            has_lines(rt.alloc(), text, wanted, *count) == Some(true),
            "at {text:?}"
        );
    }
}

// Texts, and their words.
const WORDS: [(&[u8], &[u8]); 5] = [
    (b"allow", b"allow|"),
    (b"  allow   *  +\r\n", b"allow|*|+|"),
    (b"a\tb c", b"a\tb|c|"),
    (b"want org.iso \xc3\xa4 1", b"want|org.iso|\xc3\xa4|1|"),
    (b"#a b\n \nc #d", b"c|#d|"),
];

// Bytes, and whether they are a word and a name.
const FORMS: [(&[u8], bool); 7] = [
    (b"", false),
    (b"!~", true),
    (b"a b", false),
    (b"a\t", false),
    (b"\x20", false),
    (b"\x7f", false),
    (b"\xc3\xa4", false),
];

// Whether a text has those words.
fn has_words(alloc: Global, text: &[u8], wanted: &[u8]) -> Option<bool> {
    Some(shown_words(alloc, text)?.as_slice() == wanted)
}

#[test]
fn words_stand_between_spaces(rt: HostRuntime) {
    for (text, wanted) in &WORDS {
        assert!(rt;
            has_words(rt.alloc(), text, wanted) == Some(true),
            "at {text:?}"
        );
    }
    for (bytes, wanted) in &FORMS {
        assert!(rt;
            is_word(bytes) == *wanted && is_name(bytes) == *wanted,
            "at {bytes:?}"
        );
    }
    assert!(rt; is_name(&[b'n'; 128]));
    assert!(rt; !is_name(&[b'n'; 129]));
    assert!(rt; is_word(&[b'n'; 129]));
}
