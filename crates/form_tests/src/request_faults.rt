//! Requests for as many elements as one may have, and for more.

use cbor_view::View;
use cbor_write::Build;
use doc_request::{Request, RequestFault};
use mdoc_outside::{Memory, Octets};
use std::alloc::Global;
use std::test::*;

/// What is wrong with bytes as a request, where they are one item.
fn told(bytes: &[u8], wanted: Option<RequestFault>) -> bool {
    match View::read(bytes) {
        Ok(view) => Request::read(view).err() == wanted,
        Err(_) => false,
    }
}

/// Appends a name of three digits.
fn put_name(out: &mut Build, number: u32) -> Result<(), Memory> {
    let digits = [
        b'0'.wrapping_add((number / 100 % 10) as u8),
        b'0'.wrapping_add((number / 10 % 10) as u8),
        b'0'.wrapping_add((number % 10) as u8),
    ];
    match std::str::from_utf8(&digits) {
        Ok(name) => out.text(name),
        Err(_) => Ok(()),
    }
}

/// Appends a namespace with so many names, each of which comes again after a period.
fn put_space(out: &mut Build, ns: &str, count: u32, period: u32) -> Result<(), Memory> {
    out.text(ns)?;
    out.map(count)?;
    for number in 0..count {
        put_name(out, number.checked_rem(period).unwrap_or(0))?;
        out.boolean(false)?;
    }
    Ok(())
}

/// An items request for so many elements in each of two namespaces.
fn items(alloc: Global, counts: (u32, u32), period: u32) -> Result<Octets, Memory> {
    let mut out = Build::new(alloc);
    out.map(2)?;
    out.text("docType")?;
    out.text("d")?;
    out.text("nameSpaces")?;
    out.map(2)?;
    put_space(&mut out, "n", counts.0, period)?;
    put_space(&mut out, "m", counts.1, period)?;
    Ok(out.finish())
}

fn request(alloc: Global, items: &[u8]) -> Result<Octets, Memory> {
    let mut out = Build::new(alloc);
    out.map(2)?;
    out.text("version")?;
    out.text("1.0")?;
    out.text("docRequests")?;
    out.array(1)?;
    out.map(1)?;
    out.text("itemsRequest")?;
    out.tag(24)?;
    out.bytes(items)?;
    Ok(out.finish())
}

fn of_elements(alloc: Global, counts: (u32, u32), period: u32) -> Result<Octets, Memory> {
    let items = items(alloc, counts, period)?;
    request(alloc, items.as_slice())
}

/// How many elements two namespaces have, after how many a name comes again, and the first check that fails, if any: a
/// document has at most 512 elements in all, and names are distinct within a namespace alone.
const COUNTS: [((u32, u32), u32, Option<RequestFault>); 7] = [
    ((511, 1), 1000, None),
    ((12, 500), 1000, None),
    ((1, 511), 511, None),
    ((1, 511), 510, Some(RequestFault::Doubled)),
    ((512, 1), 1000, Some(RequestFault::Count)),
    ((1, 512), 1000, Some(RequestFault::Count)),
    ((1, 512), 1, Some(RequestFault::Count)),
];

fn has_check(alloc: Global, counts: (u32, u32), period: u32, wanted: Option<RequestFault>) -> bool {
    match of_elements(alloc, counts, period) {
        Ok(bytes) => told(bytes.as_slice(), wanted),
        Err(_) => false,
    }
}

#[test]
fn elements_are_counted(rt: HostRuntime) {
    for (counts, period, wanted) in &COUNTS {
        assert!(rt;
            has_check(rt.alloc(), *counts, *period, *wanted),
            "{counts:?} {period}"
        );
    }
}
