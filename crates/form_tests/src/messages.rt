// Signatures and codes: what is signed.
use cbor_view::View;
use cose_msgs::{Mac0, Sign1, mac_bytes, signed_bytes, write_mac0, write_sign1};
use std::alloc::Global;
use std::process::Abort;

// Whether what is signed and what is authenticated are these bytes, and differ under one header.
fn are_signed_so(alloc: Global) -> Option<bool> {
    let signed = signed_bytes(alloc, b"\xa1\x01\x26", b"\x01").ok()?;
    let is_signed = signed.as_slice()
        == b"\x84\x6aSignature1\x43\xa1\x01\x26\x40\x41\x01".as_slice();
    let made = mac_bytes(alloc, b"\xa1\x01\x05", b"\x01").ok()?;
    let is_made = made.as_slice() == b"\x84\x64MAC0\x43\xa1\x01\x05\x40\x41\x01".as_slice();
    let other = mac_bytes(alloc, b"\xa1\x01\x26", b"\x01").ok()?;
    Some(is_signed && is_made && other.as_slice() != signed.as_slice())
}

#[test]
fn what_is_signed(rt: HostRuntime) {
    assert!(rt; are_signed_so(rt.alloc()) == Some(true));
}

// Whether bytes that are cut short are no item, wherever they are cut.
fn are_cuts_refused(bytes: &[u8]) -> bool {
    for cut in 0..bytes.len() {
        if View::read(&bytes[..cut]).is_ok() {
            return false;
        }
    }
    true
}

// Reads bytes with another byte at each place; none where memory is wanting.
fn read_changed(alloc: Global, bytes: &[u8], byte: u8) -> Option<()> {
    for place in 0..bytes.len() {
        let mut changed = bytes.to_vec(alloc).ok()?;
        *changed.get_mut(place)? = byte;
        if let Ok(view) = View::read(&changed) {
            let _ = Sign1::read(view);
            let _ = Mac0::read(view);
        }
    }
    Some(())
}

// Whether a message that is cut short is no item, and it is read with any damage.
fn are_damages_read(alloc: Global, message: &[u8]) -> Option<bool> {
    read_changed(alloc, message, 0x00)?;
    read_changed(alloc, message, 0xff)?;
    Some(are_cuts_refused(message))
}

fn are_signatures_read(alloc: Global) -> Option<bool> {
    let signature = write_sign1(alloc, Some(b"\x01\x02"), Some(b"\x03"), &[9; 64]).ok()?;
    are_damages_read(alloc, signature.as_slice())
}

fn are_codes_read(alloc: Global) -> Option<bool> {
    are_damages_read(alloc, write_mac0(alloc, &[8; 32]).ok()?.as_slice())
}

#[test]
fn damaged_messages(rt: HostRuntime) {
    assert!(rt; are_signatures_read(rt.alloc()) == Some(true));
    assert!(rt; are_codes_read(rt.alloc()) == Some(true));
}
