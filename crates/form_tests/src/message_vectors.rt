// Messages that were made outside: that of RFC 9052, appendix C.2.1, and those that `tests/vectors/cose_messages` writes.
use cbor_view::View;
use cose_msgs::{Mac0, Sign1, mac_bytes, signed_bytes, write_mac0, write_sign1};
use std::alloc::Global;
use std::process::Abort;

const STANDARD: &[u8] =
    b"\xd2\x84\x43\xa1\x01\x26\xa1\x04\x42\x31\x31\x54\x54\x68\x69\x73\x20\x69\x73\x20\x74\x68\x65\x20\
    \x63\x6f\x6e\x74\x65\x6e\x74\x2e\x58\x40\x8e\xb3\x3e\x4c\xa3\x1d\x1c\x46\x5a\xb0\x5a\xac\x34\xcc\
    \x6b\x23\xd5\x8f\xef\x5c\x08\x31\x06\xc4\xd2\x5a\x91\xae\xf0\xb0\x11\x7e\x2a\xf9\xa2\x91\xaa\x32\
    \xe1\x4a\xb8\x34\xdc\x56\xed\x2a\x22\x34\x44\x54\x7e\x01\xf1\x1d\x3b\x09\x16\xe5\xa4\xc3\x45\xca\
    \xcb\x36";

const SIGNATURE: [u8; 64] = [
    0xa4, 0x20, 0xb8, 0xe4, 0xed, 0xeb, 0x25, 0x45, 0xd4, 0x21, 0xe0, 0xef, 0x0d, 0x23, 0x37, 0x3f,
    0x67, 0x8a, 0x5e, 0x0e, 0x98, 0x7f, 0xf1, 0x43, 0x9f, 0xed, 0x4f, 0x65, 0x26, 0x45, 0x8b, 0xd4,
    0x25, 0xef, 0x9b, 0xb2, 0xb4, 0xce, 0xea, 0x94, 0x6c, 0xcd, 0x99, 0xe6, 0x43, 0x4c, 0xc3, 0x49,
    0x7d, 0x21, 0xf5, 0xc7, 0x8f, 0x16, 0xfe, 0xfa, 0xbd, 0x9a, 0xd8, 0xc0, 0x48, 0xf9, 0x2b, 0xb3,
];

const SIGNED: &[u8] =
    b"\x84\x6a\x53\x69\x67\x6e\x61\x74\x75\x72\x65\x31\x43\xa1\x01\x26\x40\x4e\x77\x68\x61\x74\x20\x69\
    \x73\x20\x73\x69\x67\x6e\x65\x64";

const TAGGED: &[u8] =
    b"\xd2\x84\x43\xa1\x01\x26\xa1\x18\x21\x82\x51\x66\x69\x72\x73\x74\x20\x63\x65\x72\x74\x69\x66\x69\
    \x63\x61\x74\x65\x46\x73\x65\x63\x6f\x6e\x64\x4e\x77\x68\x61\x74\x20\x69\x73\x20\x73\x69\x67\x6e\
    \x65\x64\x58\x40\xa4\x20\xb8\xe4\xed\xeb\x25\x45\xd4\x21\xe0\xef\x0d\x23\x37\x3f\x67\x8a\x5e\x0e\
    \x98\x7f\xf1\x43\x9f\xed\x4f\x65\x26\x45\x8b\xd4\x25\xef\x9b\xb2\xb4\xce\xea\x94\x6c\xcd\x99\xe6\
    \x43\x4c\xc3\x49\x7d\x21\xf5\xc7\x8f\x16\xfe\xfa\xbd\x9a\xd8\xc0\x48\xf9\x2b\xb3";

const DETACHED: &[u8] =
    b"\x84\x43\xa1\x01\x26\xa1\x18\x21\x51\x66\x69\x72\x73\x74\x20\x63\x65\x72\x74\x69\x66\x69\x63\x61\
    \x74\x65\xf6\x58\x40\xa4\x20\xb8\xe4\xed\xeb\x25\x45\xd4\x21\xe0\xef\x0d\x23\x37\x3f\x67\x8a\x5e\
    \x0e\x98\x7f\xf1\x43\x9f\xed\x4f\x65\x26\x45\x8b\xd4\x25\xef\x9b\xb2\xb4\xce\xea\x94\x6c\xcd\x99\
    \xe6\x43\x4c\xc3\x49\x7d\x21\xf5\xc7\x8f\x16\xfe\xfa\xbd\x9a\xd8\xc0\x48\xf9\x2b\xb3";

const TAG: [u8; 32] = [
    0x5e, 0x91, 0x80, 0x9e, 0xe3, 0xf3, 0xce, 0x19, 0x4a, 0x04, 0x9f, 0x0d, 0xc0, 0xa1, 0x23, 0x88,
    0x32, 0x77, 0xff, 0x7e, 0x6f, 0xe3, 0x91, 0x94, 0x76, 0x0f, 0x3a, 0x4b, 0x3e, 0x40, 0x40, 0xc3,
];

const AUTHENTICATED: &[u8] =
    b"\x84\x64\x4d\x41\x43\x30\x43\xa1\x01\x05\x40\x4e\x77\x68\x61\x74\x20\x69\x73\x20\x73\x69\x67\x6e\
    \x65\x64";

const CODE: &[u8] =
    b"\x84\x43\xa1\x01\x05\xa0\xf6\x58\x20\x5e\x91\x80\x9e\xe3\xf3\xce\x19\x4a\x04\x9f\x0d\xc0\xa1\x23\
    \x88\x32\x77\xff\x7e\x6f\xe3\x91\x94\x76\x0f\x3a\x4b\x3e\x40\x40\xc3";

// The signature that bytes are read as.
fn signature_in(bytes: &[u8]) -> Option<Sign1<'_>> {
    Sign1::read(View::read(bytes).ok()?).ok()
}

// Whether the standard's message is read as it says.
fn is_standard() -> Option<bool> {
    let read = signature_in(STANDARD)?;
    Some(
        read.protected() == b"\xa1\x01\x26".as_slice()
            && read.payload() == Some(b"This is the content.".as_slice())
            && read.chain().is_none()
            && Some(read.signature().as_slice()) == STANDARD.get(34..),
    )
}

#[test]
fn message_of_the_standard(rt: HostRuntime) {
    assert!(rt; is_standard() == Some(true));
}

// Whether the signature that was made outside is read as it was made, and what it signs.
fn is_signature_read(alloc: Global) -> Option<bool> {
    let read = signature_in(TAGGED)?;
    let signed = signed_bytes(alloc, read.protected(), read.payload()?).ok()?;
    Some(
        read.chain() == Some(b"first certificate".as_slice())
            && *read.signature() == SIGNATURE
            && signed.as_slice() == SIGNED,
    )
}

// Whether a signature is written as it was made outside.
fn is_signature_written(alloc: Global) -> bool {
    match write_sign1(alloc, Some(b"first certificate"), None, &SIGNATURE) {
        Ok(written) => written.as_slice() == DETACHED,
        Err(_) => false,
    }
}

// Whether the code that was made outside is read as it was made, and what it authenticates.
fn is_code_read(alloc: Global) -> Option<bool> {
    let code = Mac0::read(View::read(CODE).ok()?).ok()?;
    let payload = signature_in(TAGGED)?.payload()?;
    let made = mac_bytes(alloc, code.protected(), payload).ok()?;
    Some(code.payload().is_none() && *code.tag() == TAG && made.as_slice() == AUTHENTICATED)
}

// Whether a code is written as it was made outside.
fn is_code_written(alloc: Global) -> bool {
    match write_mac0(alloc, &TAG) {
        Ok(written) => written.as_slice() == CODE,
        Err(_) => false,
    }
}

#[test]
fn messages_made_outside(rt: HostRuntime) {
    assert!(rt; is_signature_read(rt.alloc()) == Some(true));
    assert!(rt; is_signature_written(rt.alloc()));
    assert!(rt; is_code_read(rt.alloc()) == Some(true));
    assert!(rt; is_code_written(rt.alloc()));
}
