//! The first fault of a spec file: each check at its line, and the order of the checks.

use issue_spec::{Spec, SpecCheck, SpecFault};
use mdl_table::RowFault;
use std::alloc::Global;
use std::test::*;

/// All header lines that have to be there, 1 to 7, of a type without mandatory elements.
const HEADERS: &str =
    "type d\nauth sig\ncopies 2\nsigner new\nsigned 2024-01-01T00:00:00Z\nfrom 2024-01-01T00:00:00Z\nuntil 2029-01-01T00:00:00Z\n";

/// The same but for the signer, 1 to 6.
const WITHOUT_SIGNER: &str =
    "type d\nauth mac\ncopies 64\nsigned 2024-01-01T00:00:00Z\nfrom 2024-01-01T00:00:00Z\nuntil 2029-01-01T00:00:00Z\n";

/// The same but for the times, 1 to 4.
const WITHOUT_TIMES: &str = "type d\nauth sig\ncopies 1\nsigner new\n";

/// A licence, 1 to 7, whose last two times are in the wrong order.
const LICENCE: &str =
    "type org.iso.18013.5.1.mDL\nauth sig\ncopies 2\nsigner new\nsigned 2024-01-01T00:00:00Z\nfrom 2029-01-01T00:00:00Z\nuntil 2024-01-01T00:00:00Z\n";

/// All mandatory elements but the portrait.
const TEN: &str =
    "element org.iso.18013.5.1 family_name text M\nelement org.iso.18013.5.1 given_name text E\nelement org.iso.18013.5.1 birth_date date 1990-01-01\nelement org.iso.18013.5.1 issue_date date 2024-01-01\nelement org.iso.18013.5.1 expiry_date date 2029-01-01\nelement org.iso.18013.5.1 issuing_country text UT\nelement org.iso.18013.5.1 issuing_authority text E\nelement org.iso.18013.5.1 document_number text D\nelement org.iso.18013.5.1 driving_privileges cbor 80\nelement org.iso.18013.5.1 un_distinguishing_sign text UTO\n";

/// A certificate of the profile.
const CERTIFICATE: &str = "\
    3082010b3081b1a003020102020107300a06082a8648ce3d040302300f310d300b06035504030c04726f6f74\
    301e170d3234303130313030303030305a170d3331303130313030303030305a300f310d300b06035504030c\
    04726f6f743059301306072a8648ce3d020106082a8648ce3d03010703420004ccf7a87be5ca16eac008923d\
    ab1e28b8123105aa3ccd9918705222ca5d3a7cc6bb272ea8e55308f90252c96a2e956be8b636e578e32d3663\
    ff5b6ffe5e9d6cb2300a06082a8648ce3d0403020349003046022100d4e350e738384a7425db326df375fbff\
    2a7d6152db19ea99209d390a4fa0d1db022100fd316e690a751f8014c023b7725762a5479aaf98487683e316\
    5f82b4174f8c4e";

/// Whether lines are a spec.
fn is_spec(alloc: Global, lines: &[&str]) -> bool {
    match joined(alloc, lines) {
        Some(text) => Spec::read(alloc, text.as_bytes()).is_ok(),
        None => false,
    }
}

/// Whether the first fault of lines is that of this check, at this line.
fn is_fault(alloc: Global, lines: &[&str], check: SpecCheck, at: u64) -> bool {
    match joined(alloc, lines) {
        Some(text) => {
            Spec::read(alloc, text.as_bytes()).err() == Some(SpecFault::Form(check, at))
        }
        None => false,
    }
}

/// Lines one after the other.
fn joined(alloc: Global, lines: &[&str]) -> Option<String> {
    let mut text = String::new(alloc);
    for line in lines {
        text.push_str(line).ok()?;
    }
    Some(text)
}

/// Lines that stand after all headers.
const ELEMENTS: [&str; 12] = [
    "element n a text x",
    "\n  element   n  a   text  x y  \r\n# the last\n",
    "update 2028-01-01T00:00:00Z\nelement n a text x",
    "element n a text x\nelement m a uint 1\nelement n b uint 1\n",
    "element n a uint 18446744073709551615\n",
    "element n a bytes 0aF0\n",
    "element n a bytes -\n",
    "element n a date 1990-02-30\n",
    "element n a cbor 8100\n",
    "element org.iso.18013.5.1 birth_date date 1990-02-28",
    "element org.iso.18013.5.1 sex uint 9",
    "element org.iso.18013.5.1 other uint 3",
];

/// Lines after all headers with the number of the bad one.
const BAD_ELEMENTS: [(&str, u64); 24] = [
    ("", 7),
    ("\n# no element\n", 9),
    ("element n a text x\nupdate 2028-01-01T00:00:00Z\n", 9),
    ("element n a text x\nauth sig\n", 9),
    ("element n a text x\nelement n a uint 1\n", 9),
    ("element n a text\n", 8),
    ("element n a\n", 8),
    ("element n a uint 1 2\n", 8),
    ("element n a float 1\n", 8),
    ("Element n a uint 1\n", 8),
    ("elements\n", 8),
    ("element n a uint 18446744073709551616\n", 8),
    ("element n a uint 01\n", 8),
    ("element n a uint +1\n", 8),
    ("element n a bool yes\n", 8),
    ("element n a bytes 0\n", 8),
    ("element n a bytes 0g\n", 8),
    ("element n a date 1990-2-30\n", 8),
    ("element n a cbor 81\n", 8),
    ("element n a cbor 0000\n", 8),
    ("element n a cbor -\n", 8),
    ("element org.iso.18013.5.1 sex uint 03", 8),
    (
        "element org.iso.18013.5.1 sex uint 2\nelement org.iso.18013.5.1 sex uint 3",
        9,
    ),
    ("wrong\nelement org.iso.18013.5.1 sex uint 3", 8),
];

/// Elements after all headers whose value doesn't fit its row.
const BROKEN_ROWS: [(&str, RowFault); 4] = [
    (
        "element org.iso.18013.5.1 birth_date date 1990-02-30",
        RowFault::DateWrong,
    ),
    (
        "element org.iso.18013.5.1 birth_date text 1990-02-28",
        RowFault::KindWrong,
    ),
    ("element org.iso.18013.5.1 sex uint 3", RowFault::RangeWrong),
    (
        "element org.iso.18013.5.1 sex uint 3\nwrong",
        RowFault::RangeWrong,
    ),
];

#[test]
fn element_lines(rt: HostRuntime) {
    for lines in &ELEMENTS {
        assert!(rt; is_spec(rt.alloc(), &[HEADERS, lines]), "{lines}");
    }
    for (lines, at) in &BAD_ELEMENTS {
        assert!(rt;
            is_fault(rt.alloc(), &[HEADERS, lines], SpecCheck::Line, *at),
            "{lines}"
        );
    }
    for (lines, fault) in &BROKEN_ROWS {
        assert!(rt;
            is_fault(rt.alloc(), &[HEADERS, lines], SpecCheck::Row(*fault), 8),
            "{lines}"
        );
    }
}

/// Lines that are no spec, with the number of the bad one.
const BAD_HEADERS: [(&str, u64); 14] = [
    ("", 1),
    ("\n\n# nothing", 3),
    ("type d\ntype d\n", 2),
    ("type d e\n", 1),
    ("auth none\n", 1),
    ("copies 0\n", 1),
    ("copies 65\n", 1),
    ("copies 064\n", 1),
    ("copies 64\n", 1),
    ("signer old\n", 1),
    ("signed 2023-02-29T00:00:00Z\n", 1),
    ("from 2024-01-01T24:00:00Z\n", 1),
    ("until 2024-01-01T23:59:60Z\n", 1),
    ("update 2024-01-01\n", 1),
];

/// Headers of which one is missing where the element stands, with the number of its line.
const INCOMPLETE: [(&str, u64); 2] = [(WITHOUT_SIGNER, 7), (WITHOUT_TIMES, 5)];

/// Lines of a signer whose key or certificate is none, 7 of its file.
const BAD_SIGNERS: [(&str, &str); 5] = [
    ("signer 4294967296 ", CERTIFICATE),
    ("signer 00 ", CERTIFICATE),
    ("signer 1 ", "30"),
    ("signer 1 ", "-"),
    ("signer new ", CERTIFICATE),
];

const ELEMENT: &str = "\nelement n a text x\n";

#[test]
fn header_lines(rt: HostRuntime) {
    for (lines, at) in &BAD_HEADERS {
        assert!(rt;
            is_fault(rt.alloc(), &[lines], SpecCheck::Line, *at),
            "{lines}"
        );
    }
    for (lines, at) in &INCOMPLETE {
        let file = [*lines, "element n a text x"];
        assert!(rt;
            is_fault(rt.alloc(), &file, SpecCheck::Line, *at),
            "{lines}"
        );
    }
    for key in &["signer 4294967295 ", "signer 0 "] {
        let file = [WITHOUT_SIGNER, *key, CERTIFICATE, ELEMENT];
        assert!(rt; is_spec(rt.alloc(), &file), "{key}");
    }
    for (key, digits) in &BAD_SIGNERS {
        let file = [WITHOUT_SIGNER, *key, *digits, ELEMENT];
        assert!(rt;
            is_fault(rt.alloc(), &file, SpecCheck::Line, 7),
            "{key}{digits}"
        );
    }
}

/// Times of which the first is the last second of 1949.
const EARLY: &str =
    "signed 1949-12-31T23:59:59Z\nfrom 2024-01-01T00:00:00Z\nuntil 2029-01-01T00:00:00Z\n";

/// Times that are all the first second of 1950.
const FIRST: &str =
    "signed 1950-01-01T00:00:00Z\nfrom 1950-01-01T00:00:00Z\nuntil 1950-01-01T00:00:00Z\n";

/// A signer with a certificate, 1 to 4.
const KNOWN: [&str; 3] = ["signer 1 ", CERTIFICATE, "\ntype d\nauth sig\ncopies 1\n"];

/// A time before 1950 is bad where a line `signer new` is there anywhere, be it bad or not.
#[test]
fn times_of_new_certificates(rt: HostRuntime) {
    let alloc = rt.alloc();
    let [signer, digits, rest] = KNOWN;
    let element = "element n a text x";
    assert!(rt; is_fault(alloc, &[WITHOUT_TIMES, EARLY, element], SpecCheck::Line, 5));
    assert!(rt; is_spec(alloc, &[WITHOUT_TIMES, FIRST, element]));
    let update = "update 1949-12-31T23:59:59Z";
    assert!(rt; is_fault(alloc, &[WITHOUT_TIMES, FIRST, update], SpecCheck::Line, 8));
    assert!(rt; is_fault(alloc, &[EARLY, "wrong\nsigner new\n"], SpecCheck::Line, 1));
    assert!(rt;
        is_fault(
            alloc,
            &[EARLY, "wrong\nsigner new new\n"],
            SpecCheck::Line,
            4
        )
    );
    assert!(rt; is_spec(alloc, &[signer, digits, rest, EARLY, element]));
    let bad = "element n a text x\n signer  new ";
    assert!(rt;
        is_fault(
            alloc,
            &[signer, digits, rest, EARLY, bad],
            SpecCheck::Line,
            5
        )
    );
}

/// Elements of a licence without all mandatory ones after ten of them, or with all, and the check of the whole.
const WHOLE: [(&str, SpecCheck); 4] = [
    ("", SpecCheck::Missing(9)),
    ("element n portrait bytes 00\n", SpecCheck::Missing(9)),
    (
        "element org.iso.18013.5.1 administrative_number text 9\n",
        SpecCheck::Missing(9),
    ),
    (
        "element org.iso.18013.5.1 portrait bytes 00\n",
        SpecCheck::Order,
    ),
];

/// The checks of the whole come after those of all lines and of the end, and a missing element before the order of
/// the times.
#[test]
fn whole_files(rt: HostRuntime) {
    let alloc = rt.alloc();
    for (lines, check) in &WHOLE {
        assert!(rt;
            is_fault(alloc, &[LICENCE, TEN, lines], *check, 0),
            "{lines}"
        );
    }
    let element = "element n a text x";
    assert!(rt; is_fault(alloc, &[LICENCE, element], SpecCheck::Missing(1), 0));
    let late =
        "signed 2024-01-01T00:00:01Z\nfrom 2024-01-01T00:00:00Z\nuntil 2029-01-01T00:00:00Z\n";
    assert!(rt; is_fault(alloc, &[WITHOUT_TIMES, late, element], SpecCheck::Order, 0));
}
