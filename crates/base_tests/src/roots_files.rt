//! Roots files: a name and the digits of a certificate a line.

use crate::certificates::{ROOT, SIGNER};
use cert_view::{Roots, RootsFault};
use std::alloc::Global;
use std::test::*;

/// What stands before the root's digits and after them, and the fault of that file, if it
/// has one.
const FILES: [(&[u8], &[u8], Option<RootsFault>); 19] = [
    (b"root issuer ", b"", None),
    (b"  root  issuer   ", b"  ", None),
    (
        b"# a comment \xff\n\n  \r\n  # another\nroot issuer ",
        b"\r\n\n",
        None,
    ),
    (b"root #1 ", b"", None),
    (b"root *+ ", b"", None),
    (
        b"root 123456789.123456789.123456789.123456789.123456789.123456789.123456789.123456789.123456789.123456789.123456789.123456789.12345678 ",
        b"",
        None,
    ),
    (
        b"root 123456789.123456789.123456789.123456789.123456789.123456789.123456789.123456789.123456789.123456789.123456789.123456789.123456789 ",
        b"",
        Some(RootsFault::Line(1)),
    ),
    (b"root * ", b"", Some(RootsFault::Line(1))),
    (b"root + ", b"", Some(RootsFault::Line(1))),
    (b"root issu\xc3\xa9r ", b"", Some(RootsFault::Line(1))),
    (
        b"\n# a comment\nRoot issuer ",
        b"",
        Some(RootsFault::Line(3)),
    ),
    (b"root ", b"", Some(RootsFault::Line(1))),
    (b"root issuer of ", b"", Some(RootsFault::Line(1))),
    (b"root issuer ", b"\r", Some(RootsFault::Line(1))),
    (b"root issuer ", b"0", Some(RootsFault::Line(1))),
    (b"root issuer ", b"00", Some(RootsFault::Line(1))),
    (b"root issuer ", b"0g", Some(RootsFault::Line(1))),
    (
        b"root issuer -\nroot issuer ",
        b"",
        Some(RootsFault::Line(1)),
    ),
    (
        b"root issuer ",
        b"\nroot issuer 30\n",
        Some(RootsFault::Line(2)),
    ),
];

/// The fault of a file in which the root's digits stand between these.
fn fault_around(alloc: Global, front: &[u8], behind: &[u8]) -> Result<Option<RootsFault>, Fail> {
    let mut text = front.to_vec(alloc)?;
    text.extend_from_slice(ROOT.as_bytes())?;
    text.extend_from_slice(behind)?;
    Ok(Roots::read(alloc, &text).err())
}

/// How many roots a file has.
fn count_of(alloc: Global, text: &[u8]) -> Result<usize, RootsFault> {
    match Roots::read(alloc, text) {
        Ok(roots) => Ok(roots.list().len()),
        Err(fault) => Err(fault),
    }
}

#[test]
fn reads_roots_files(rt: HostRuntime) -> Result<(), Fail> {
    for (front, behind, fault) in &FILES {
        assert!(rt;
            fault_around(rt.alloc(), front, behind)? == *fault,
            "{front:?}"
        );
    }
    assert!(rt; count_of(rt.alloc(), b"# nobody\n") == Ok(0));
    Ok(())
}

/// The name of a root of that number, and whether its certificate is a document signer's.
fn root_of(roots: &Roots, number: usize) -> Option<(&str, bool)> {
    let root = roots.list().get(number)?;
    Some((root.name(), root.cert().signs_documents()))
}

/// Names may repeat, and digits are of either case.
#[test]
fn roots_stand_in_the_order_of_the_file(rt: HostRuntime) -> Result<(), Fail> {
    let signer = SIGNER.to_ascii_uppercase(rt.alloc())?;
    let text = format!(in rt.alloc(); "root first {signer}\nroot first {ROOT}")?;
    let roots = Roots::read(rt.alloc(), text.as_bytes())?;
    assert!(rt; root_of(&roots, 0) == Some(("first", true)));
    assert!(rt; root_of(&roots, 1) == Some(("first", false)));
    Ok(())
}

/// How many roots a file has: so many lines of the root, and what stands after them.
fn count_after(
    alloc: Global,
    lines: usize,
    rest: &[u8],
) -> Result<Result<usize, RootsFault>, Fail> {
    let mut text = Vec::new(alloc);
    for _ in 0..lines {
        text.extend_from_slice(b"root issuer ")?;
        text.extend_from_slice(ROOT.as_bytes())?;
        text.push(b'\n')?;
    }
    text.extend_from_slice(rest)?;
    Ok(count_of(alloc, &text))
}

#[test]
fn reads_at_most_64_roots(rt: HostRuntime) -> Result<(), Fail> {
    for (lines, rest, wanted) in [
        (64, b"".as_slice(), Ok(64)),
        (64, b"\nroot issuer\n", Err(RootsFault::Line(66))),
        (65, b"", Err(RootsFault::TooMany(65))),
        (65, b"root issuer\n", Err(RootsFault::TooMany(65))),
    ] {
        assert!(rt;
            count_after(rt.alloc(), lines, rest)? == wanted,
            "{lines} and {rest:?}"
        );
    }
    Ok(())
}

/// The digits of the tag of a SEQUENCE and of its length in two bytes.
fn sequence_head(alloc: Global, length: u16) -> Result<String, Fail> {
    Ok(format!(in alloc; "3082{length:04x}")?)
}

/// The root's line with an issuer that is so long that the certificate has that many bytes: what is
/// inside a name is not read.
fn line_of_size(alloc: Global, size: u16) -> Result<String, Fail> {
    let front = ROOT.get(14..54).ok_or("up to the issuer")?;
    let behind = ROOT.get(88..).ok_or("from after the issuer on")?;
    let whole = sequence_head(alloc, size.saturating_sub(4))?;
    let signed = sequence_head(alloc, size.saturating_sub(95))?;
    let issuer = sequence_head(alloc, size.saturating_sub(259))?;
    let mut line = format!(in alloc; "root issuer {whole}{signed}{front}{issuer}")?;
    for _ in 0..size.saturating_sub(259) {
        line.push_str("00")?;
    }
    line.push_str(behind)?;
    Ok(line)
}

#[test]
fn reads_certificates_of_at_most_8192_bytes(rt: HostRuntime) -> Result<(), Fail> {
    let most = line_of_size(rt.alloc(), 8192)?;
    assert!(rt; count_of(rt.alloc(), most.as_bytes()) == Ok(1));
    let more = line_of_size(rt.alloc(), 8193)?;
    assert!(rt; count_of(rt.alloc(), more.as_bytes()) == Err(RootsFault::Line(1)));
    Ok(())
}
