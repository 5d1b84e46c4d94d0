// Keys: the worked one.
use cbor_view::View;
use cose_msgs::{CoseKey, write_key};
use key_device::Point;
use std::alloc::Global;
use std::process::Abort;

const ZEROS: &[u8] = &[0x00; 32];

const ONES: &[u8] = &[0x01; 32];

const WORKED: Point = Point {
    x: [0x00; 32],
    y: [0x01; 32],
};

// Whether the bytes of a key are a head, x, a head and y.
fn are_parts(bytes: &[u8]) -> bool {
    bytes.len() == 75
        && bytes.get(..8) == Some(b"\xa4\x01\x02\x20\x01\x21\x58\x20".as_slice())
        && bytes.get(8..40) == Some(ZEROS)
        && bytes.get(40..43) == Some(b"\x22\x58\x20".as_slice())
        && bytes.get(43..) == Some(ONES)
}

// Whether bytes are read as the worked key.
fn is_read(bytes: &[u8]) -> bool {
    match View::read(bytes) {
        Ok(view) => CoseKey::read(view) == Ok(CoseKey { point: WORKED }),
        Err(_) => false,
    }
}

// Whether the worked key is written in these parts, and read again.
fn is_written(alloc: Global) -> Option<bool> {
    let written = write_key(alloc, &WORKED).ok()?;
    Some(are_parts(written.as_slice()) && is_read(written.as_slice()))
}

#[test]
fn worked_key(rt: HostRuntime) {
    assert!(rt; is_written(rt.alloc()) == Some(true));
}

// Whether bytes that are cut short are no item, wherever they are cut.
fn are_cuts_refused(bytes: &[u8]) -> bool {
    for cut in 0..bytes.len() {
        if View::read(&bytes[..cut]).is_ok() {
            return false;
        }
    }
    true
}

// Reads bytes with another byte at each place; none where memory is wanting.
fn read_changed(alloc: Global, bytes: &[u8], byte: u8) -> Option<()> {
    for place in 0..bytes.len() {
        let mut changed = bytes.to_vec(alloc).ok()?;
        *changed.get_mut(place)? = byte;
        if let Ok(view) = View::read(&changed) {
            let _ = CoseKey::read(view);
        }
    }
    Some(())
}

// Whether the worked key that is cut short is no item, and it is read with any damage.
fn are_damages_read(alloc: Global) -> Option<bool> {
    let written = write_key(alloc, &WORKED).ok()?;
    read_changed(alloc, written.as_slice(), 0x00)?;
    read_changed(alloc, written.as_slice(), 0xff)?;
    Some(are_cuts_refused(written.as_slice()))
}

#[test]
fn damaged_keys(rt: HostRuntime) {
    assert!(rt; are_damages_read(rt.alloc()) == Some(true));
}
