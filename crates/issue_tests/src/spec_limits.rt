//! Limits of a spec file: 16 namespaces, 512 elements, 262,144 bytes of a value.

use issue_spec::{Spec, SpecCheck, SpecFault};
use mdoc_outside::LimitName;
use std::alloc::Global;
use std::test::*;

/// All header lines, 1 to 7.
const HEADERS: &str =
    "type d\nauth sig\ncopies 2\nsigner new\nsigned 2024-01-01T00:00:00Z\nfrom 2024-01-01T00:00:00Z\nuntil 2029-01-01T00:00:00Z\n";

/// So many namespaces, each with one element.
fn with_namespaces(alloc: Global, count: u64) -> Option<String> {
    let mut text = String::new(alloc);
    text.push_str(HEADERS).ok()?;
    for n in 0..count {
        let line = format!(in alloc; "element n{n} a uint 1\n").ok()?;
        text.push_str(&line).ok()?;
    }
    Some(text)
}

/// So many elements of one namespace.
fn with_elements(alloc: Global, count: u64) -> Option<String> {
    let mut text = String::new(alloc);
    text.push_str(HEADERS).ok()?;
    for n in 0..count {
        let line = format!(in alloc; "element n a{n} uint 1\n").ok()?;
        text.push_str(&line).ok()?;
    }
    Some(text)
}

/// An element with a string of so many zero digits, two for each byte.
fn with_digits(alloc: Global, digits: usize) -> Option<String> {
    let mut text = String::new(alloc);
    text.push_str(HEADERS).ok()?;
    text.push_str("element n a bytes ").ok()?;
    for _digit in 0..digits {
        text.push('0').ok()?;
    }
    Some(text)
}

/// Whether a text could be made and is a spec.
fn is_spec(alloc: Global, text: Option<String>) -> bool {
    match text {
        Some(text) => Spec::read(alloc, text.as_bytes()).is_ok(),
        None => false,
    }
}

/// Whether a text could be made and passes this limit, by this number, at this line.
fn exceeds(alloc: Global, text: Option<String>, limit: LimitName, number: u64, line: u64) -> bool {
    let fault = SpecFault::Form(SpecCheck::Limit(limit, number), line);
    match text {
        Some(text) => Spec::read(alloc, text.as_bytes()).err() == Some(fault),
        None => false,
    }
}

#[test]
fn takes_what_is_within_the_limits(rt: HostRuntime) {
    let alloc = rt.alloc();
    assert!(rt; is_spec(alloc, with_namespaces(alloc, 16)));
    assert!(rt; is_spec(alloc, with_elements(alloc, 512)));
    assert!(rt; is_spec(alloc, with_digits(alloc, 524_278)));
}

#[test]
fn tells_a_passed_limit(rt: HostRuntime) {
    let alloc = rt.alloc();
    assert!(rt;
        exceeds(
            alloc,
            with_namespaces(alloc, 17),
            LimitName::Namespaces,
            17,
            24
        )
    );
    assert!(rt; exceeds(alloc, with_elements(alloc, 513), LimitName::Items, 513, 520));
    assert!(rt;
        exceeds(
            alloc,
            with_digits(alloc, 524_280),
            LimitName::Value,
            262_145,
            8
        )
    );
}
