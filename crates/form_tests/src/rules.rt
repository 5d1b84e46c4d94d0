//! The holder's rules.

use consent::{RuleFault, Rules, Wish};
use std::alloc::Global;
use std::test::*;

/// Rules files, each with its first bad line.
const BAD_LINES: [(&[u8], u64); 4] = [
    (b"permit * * * * *\n", 1),
    (b"allow * * * * *\nallow * * * * * *\n", 2),
    (b"\n#\nallow * * * *\n", 3),
    (b"allow * * * * 2\n", 1),
];

fn has_bad_line(alloc: Global, text: &[u8], line: u64) -> bool {
    match Rules::read(alloc, text) {
        Err(RuleFault::Line(found)) => found == line,
        _ => false,
    }
}

#[test]
fn bad_lines(rt: HostRuntime) {
    for (text, line) in &BAD_LINES {
        assert!(rt; has_bad_line(rt.alloc(), text, *line), "{text:?}");
    }
}

/// No portrait for anybody, and what isn't retained for known readers.
const RULES: &[u8] = b"deny * * * portrait *\nallow + org.iso.18013.5.1.mDL * * 0\n";

/// A name, whether it is retained, the reader, and whether the rules allow it.
const WISHES: [(&str, bool, Option<&str>, bool); 5] = [
    ("portrait", false, None, false),
    ("portrait", false, Some("police"), false),
    ("family_name", false, Some("police"), true),
    ("family_name", false, None, false),
    ("family_name", true, Some("police"), false),
];

fn allows(alloc: Global, name: &str, retain: bool, reader: Option<&str>) -> Option<bool> {
    let rules = Rules::read(alloc, RULES).ok()?;
    let wish = Wish {
        doc_type: "org.iso.18013.5.1.mDL",
        ns: "org.iso.18013.5.1",
        name,
        retain,
    };
    Some(rules.allows(&wish, reader))
}

#[test]
fn the_first_matching_rule_decides(rt: HostRuntime) {
    for (name, retain, reader, allowed) in &WISHES {
        assert!(rt;
            allows(rt.alloc(), name, *retain, *reader) == Some(*allowed),
            "{name} {retain}"
        );
    }
}
