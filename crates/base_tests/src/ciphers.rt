//! Values of the standards, and texts of lengths round that of a block, sealed and opened.

ghost use Rattle.std.specs.Prelude.{◌^◌, ◌≤◌, length};

use aes_gcm::{Key256, NoMatch};
use std::process::Abort;
use std::test::Fail;

const COUNTED_KEY: [u8; 32] = [
    0x00, 0x01, 0x02, 0x03, 0x04, 0x05, 0x06, 0x07, 0x08, 0x09, 0x0a, 0x0b, 0x0c, 0x0d, 0x0e, 0x0f,
    0x10, 0x11, 0x12, 0x13, 0x14, 0x15, 0x16, 0x17, 0x18, 0x19, 0x1a, 0x1b, 0x1c, 0x1d, 0x1e, 0x1f,
];

const COUNTED_IV: [u8; 12] = [
    0x00, 0x01, 0x02, 0x03, 0x04, 0x05, 0x06, 0x07, 0x08, 0x09, 0x0a, 0x0b,
];

// FIPS 197, appendix C.3.
#[test]
fn gives_the_block_of_the_standard(rt: HostRuntime) {
    let block = [
        0x00, 0x11, 0x22, 0x33, 0x44, 0x55, 0x66, 0x77, 0x88, 0x99, 0xaa, 0xbb, 0xcc, 0xdd, 0xee,
        0xff,
    ];
    let cipher = [
        0x8e, 0xa2, 0xb7, 0xca, 0x51, 0x67, 0x45, 0xbf, 0xea, 0xfc, 0x49, 0x90, 0x4b, 0x49, 0x60,
        0x89,
    ];
    assert_eq!(rt; Key256::new(&COUNTED_KEY).block(&block), cipher);
}

struct Case {
    text: &'static [u8],
    cipher: &'static [u8],
    tag: [u8; 16],
}

// Test cases 13 and 14 of the specification of GCM that was submitted to NIST: the key and the IV
// are zeros.
const CASES: [Case; 2] = [
    Case {
        text: &[],
        cipher: &[],
        tag: [
            0x53, 0x0f, 0x8a, 0xfb, 0xc7, 0x45, 0x36, 0xb9, 0xa9, 0x63, 0xb4, 0xf1, 0xc4, 0xcb,
            0x73, 0x8b,
        ],
    },
    Case {
        text: &[0; 16],
        cipher: &[
            0xce, 0xa7, 0x40, 0x3d, 0x4d, 0x60, 0x6b, 0x6e, 0x07, 0x4e, 0xc5, 0xd3, 0xba, 0xf3,
            0x9d, 0x18,
        ],
        tag: [
            0xd0, 0xd1, 0xc8, 0xa7, 0x99, 0x99, 0x6b, 0xf0, 0x26, 0x5b, 0x98, 0xb5, 0xd4, 0x8a,
            0xb9, 0x19,
        ],
    },
];

#[test]
fn seals_and_opens_the_cases_of_the_submission(rt: HostRuntime) -> Result<(), Fail> {
    let key = Key256::new(&[0; 32]);
    for case in CASES.iter() {
        let mut text = case.text.to_vec(rt.alloc())?;
        assert!(rt; text.len() <= 16);
        try_case(&rt, &key, case, text.as_mut_slice());
    }
    Ok(())
}

// Each tag with one byte changed is refused, and leaves the ciphertext.
fn try_case(rt: &impl Abort, key: &Key256, case: &Case, text: &mut [u8])
    requires { length text.old ≤ 16 }
{
    let iv = [0; 12];
    assert_eq!(rt; key.seal_in_place(&iv, text), case.tag);
    assert!(rt; is_same(text, case.cipher));
    for i in 0..16 {
        let mut wrong = case.tag;
        wrong[i] ^= 1;
        assert_eq!(rt; key.open_in_place(&iv, text, &wrong), Err(NoMatch));
        assert!(rt; is_same(text, case.cipher));
    }
    assert_eq!(rt; key.open_in_place(&iv, text, &case.tag), Ok(()));
    assert!(rt; is_same(text, case.text));
}

struct Sealed {
    len: usize,
    tag: [u8; 16],
}

// Byte i of each text is i modulo 251; the tags are those of Python's `cryptography`.
const TEXTS: [Sealed; 9] = [
    Sealed {
        len: 0,
        tag: [
            0xf4, 0xc2, 0xdb, 0x1d, 0xc3, 0x88, 0x05, 0xa3, 0x7b, 0x92, 0x17, 0x1c, 0x5d, 0x0a,
            0x81, 0xcc,
        ],
    },
    Sealed {
        len: 1,
        tag: [
            0xe2, 0x1e, 0x76, 0x14, 0xfe, 0x81, 0xb8, 0x50, 0x36, 0x17, 0xcc, 0x0c, 0x09, 0x4e,
            0x7b, 0x79,
        ],
    },
    Sealed {
        len: 15,
        tag: [
            0x12, 0x7f, 0xc0, 0x6c, 0x8a, 0xad, 0x73, 0xeb, 0x2f, 0x68, 0xaf, 0xf8, 0x3a, 0x70,
            0x38, 0x59,
        ],
    },
    Sealed {
        len: 16,
        tag: [
            0xed, 0x39, 0x55, 0x08, 0x27, 0x6f, 0xf6, 0x60, 0x85, 0x0d, 0x12, 0xd3, 0xe7, 0x55,
            0xeb, 0xa5,
        ],
    },
    Sealed {
        len: 17,
        tag: [
            0x28, 0x70, 0x90, 0xe0, 0xd5, 0x5b, 0x37, 0x2d, 0xaf, 0x44, 0x92, 0x1b, 0xaa, 0xba,
            0x7e, 0xb3,
        ],
    },
    Sealed {
        len: 31,
        tag: [
            0x3c, 0xcb, 0x5f, 0x33, 0x4d, 0xdd, 0x15, 0x0d, 0xc3, 0xc6, 0xac, 0x58, 0x3b, 0x41,
            0x93, 0xfe,
        ],
    },
    Sealed {
        len: 32,
        tag: [
            0x5e, 0xdd, 0xdc, 0x50, 0x74, 0x04, 0x4e, 0x22, 0x82, 0xb4, 0x32, 0xb3, 0xf2, 0xd8,
            0xf6, 0x73,
        ],
    },
    Sealed {
        len: 1000,
        tag: [
            0x30, 0x37, 0x06, 0x53, 0x29, 0xd9, 0xa3, 0xa6, 0xf8, 0xb7, 0x8a, 0x77, 0x1c, 0x59,
            0x9b, 0x00,
        ],
    },
    Sealed {
        len: 1048016,
        tag: [
            0xcb, 0xf7, 0x6f, 0x11, 0x32, 0x2e, 0xdf, 0xa4, 0x79, 0xb2, 0x8d, 0x60, 0x1b, 0xc1,
            0x84, 0x9f,
        ],
    },
];

#[test]
fn opens_what_it_sealed(rt: HostRuntime) -> Result<(), Fail> {
    let key = Key256::new(&COUNTED_KEY);
    for case in TEXTS.iter() {
        let mut text = vec![in rt.alloc(); 0; case.len]?;
        assert!(rt; text.len() <= 1 << 24);
        round_trip(&rt, &key, case, text.as_mut_slice());
    }
    Ok(())
}

fn round_trip(rt: &impl Abort, key: &Key256, case: &Sealed, text: &mut [u8])
    requires { length text.old ≤ 2 ^ 24 }
{
    fill(text);
    let tag = key.seal_in_place(&COUNTED_IV, text);
    assert_eq!(rt; tag, case.tag);
    assert_eq!(rt; key.open_in_place(&COUNTED_IV, text, &tag), Ok(()));
    for (i, byte) in text.iter().enumerate() {
        assert_eq!(rt; *byte, (i % 251) as u8);
    }
}

fn fill(text: &mut [u8]) {
    for (i, byte) in text.iter_mut().enumerate() {
        *byte = (i % 251) as u8;
    }
}

fn is_same(left: &[u8], right: &[u8]) -> bool {
    left == right
}
