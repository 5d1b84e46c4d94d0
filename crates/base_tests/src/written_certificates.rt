//! Certificates that are written, against those of another implementation.

use cert_view::{CertDraft, write_cert};
use key_device::{Point, Recorder, ToyDevice};
use mdoc_outside::Octets;
use std::alloc::Global;
use std::test::*;

/// What a draft says, and the certificate of the toy device with the seed 7 and the owner 1.
struct Case {
    serial: u64,
    issuer: &'static [u8],
    subject: &'static [u8],
    from: i64,
    until: i64,
    signer: bool,
    issuer_key: u32,
    key: &'static str,
    bytes: &'static str,
}

/// What `tests/vectors/written_certificates` writes. The keys are the first multiples of the curve's base
/// point, after `00` and `04`.
const CASES: [Case; 3] = [
    Case {
        serial: 1,
        issuer: b"issuer",
        subject: b"issuer",
        from: 1_796_083_200,
        until: 2_524_607_999,
        signer: false,
        issuer_key: 3,
        key: "\
00046b17d1f2e12c4247f8bce6e563a440f277037d812deb33a0f4a13945d898c2964fe342e2fe1a7f9b8ee7\
eb4a7c0f9e162bce33576b315ececbb6406837bf51f5",
        bytes: "\
3082010e3081b5a003020102020101300a06082a8648ce3d0403023011310f300d06035504030c0669737375\
6572301e170d3236313230313030303030305a170d3439313233313233353935395a3011310f300d06035504\
030c066973737565723059301306072a8648ce3d020106082a8648ce3d030107034200046b17d1f2e12c4247\
f8bce6e563a440f277037d812deb33a0f4a13945d898c2964fe342e2fe1a7f9b8ee7eb4a7c0f9e162bce3357\
6b315ececbb6406837bf51f5300a06082a8648ce3d040302034800304502200f6776d89a4289ef736f02be5e\
d6f9a6b0fe9e13c8c144b7fe05c7d00a39a93b022100dcdf83d6328a00a1b1707adcec168e10ac216375e9cc\
5fb7f9d6bbc730e9c8b7",
    },
    Case {
        serial: u64::MAX,
        issuer: b"issuer",
        subject: b" ~ ~ ~ ~ ~ ~ ~ ~ ~ ~ ~ ~ ~ ~ ~ ~ ~ ~ ~ ~ ~ ~ ~ ~ ~ ~ ~ ~ ~ ~ ~ ~",
        from: -631_152_000,
        until: 2_524_608_000,
        signer: true,
        issuer_key: 3,
        key: "\
00047cf27b188d034f7e8a52380304b51ac3c08969e277f21b35a60b48fc4766997807775510db8ed040293d\
9ac69f7430dbba7dade63ce982299e04b79d227873d1",
        bytes: "\
3082016a30820111a003020102020900ffffffffffffffff300a06082a8648ce3d0403023011310f300d0603\
5504030c066973737565723020170d3530303130313030303030305a180f3230353030313031303030303030\
5a304b3149304706035504030c40207e207e207e207e207e207e207e207e207e207e207e207e207e207e207e\
207e207e207e207e207e207e207e207e207e207e207e207e207e207e207e207e207e3059301306072a8648ce\
3d020106082a8648ce3d030107034200047cf27b188d034f7e8a52380304b51ac3c08969e277f21b35a60b48\
fc4766997807775510db8ed040293d9ac69f7430dbba7dade63ce982299e04b79d227873d1a3163014301206\
03551d25040b3009060728818c5d050102300a06082a8648ce3d040302034700304402201b4de20e9919bb0d\
5190220e19b96a8b110a7c16a9b0e948c4cce2dc1976a42b022047784c9fd928a52a83207b434dee606c7309\
a3063e1fc158a8643aa8fafd2d00",
    },
    Case {
        serial: 128,
        issuer: b"a",
        subject: b"signer",
        from: 2_540_205_296,
        until: 253_402_300_799,
        signer: true,
        issuer_key: u32::MAX,
        key: "\
00045ecbe4d1a6330a44c8f7ef951d4bf165e6c6b721efada985fb41661bc6e7fd6c8734640c4998ff7e374b\
06ce1a64a2ecd82ab036384fb83d9a79b127a27d5032",
        bytes: "\
308201263081cda00302010202020080300a06082a8648ce3d040302300c310a300806035504030c01613022\
180f32303530303633303132333435365a180f39393939313233313233353935395a3011310f300d06035504\
030c067369676e65723059301306072a8648ce3d020106082a8648ce3d030107034200045ecbe4d1a6330a44\
c8f7ef951d4bf165e6c6b721efada985fb41661bc6e7fd6c8734640c4998ff7e374b06ce1a64a2ecd82ab036\
384fb83d9a79b127a27d5032a316301430120603551d25040b3009060728818c5d050102300a06082a8648ce\
3d040302034800304502203022ecb872d09f5f1da32b141a8686785bfaf04f01e4f9f0302a67c8c794d08502\
2100f52707931f1e862798aeaf76fb2323e23c50172295c835948b765612c54b3427",
    },
];

/// The point of a key's digits.
fn point_of(digits: &[u8]) -> Option<Point> {
    match digits {
        [0, 4, rest @ ..] if rest.len() == 64 => {
            let (x, y) = rest.split_at(32);
            let x = <[u8; 32]>::try_from(x).ok()?;
            let y = <[u8; 32]>::try_from(y).ok()?;
            Some(Point { x, y })
        }
        _ => None,
    }
}

/// The draft of a row.
fn draft_of(alloc: Global, case: &Case) -> Result<CertDraft, Fail> {
    let key = hex::decode(alloc, case.key).ok().ok_or("digits")?;
    Ok(CertDraft {
        serial: case.serial,
        issuer: Octets::copy_of(alloc, case.issuer)?,
        subject: Octets::copy_of(alloc, case.subject)?,
        from: case.from,
        until: case.until,
        key: point_of(&key).ok_or("a point")?,
        signer: case.signer,
        issuer_key: case.issuer_key,
    })
}

/// Whether these are the bytes of what is written for a draft, after one question.
fn is_written(alloc: Global, draft: &CertDraft, wanted: &[u8]) -> bool {
    if !draft.is_writable() {
        return false;
    }
    let mut device = Recorder::new(alloc, ToyDevice::new(7, 1, 0));
    match write_cert(alloc, draft, &mut device) {
        Ok(written) => written.as_slice() == wanted && device.talk().len() == 1,
        Err(_) => false,
    }
}

#[test]
fn writes_as_another_implementation(rt: HostRuntime) -> Result<(), Fail> {
    let alloc = rt.alloc();
    for case in &CASES {
        let draft = draft_of(alloc, case)?;
        let wanted = hex::decode(alloc, case.bytes).ok().ok_or("digits")?;
        assert!(rt; is_written(alloc, &draft, &wanted));
    }
    Ok(())
}

/// Whether a certificate of that subject and that last second can be written.
fn is_writable(alloc: Global, name: &[u8], until: i64) -> Result<bool, Fail> {
    let draft = CertDraft {
        serial: 0,
        issuer: Octets::copy_of(alloc, b"issuer")?,
        subject: Octets::copy_of(alloc, name)?,
        from: 0,
        until,
        key: Point {
            x: [0; 32],
            y: [0; 32],
        },
        signer: false,
        issuer_key: 0,
    };
    Ok(draft.is_writable())
}

#[test]
fn writes_no_other_names_and_times(rt: HostRuntime) -> Result<(), Fail> {
    let drafts: [(&[u8], i64, bool); 7] = [
        (b"a", 0, true),
        (b"", 0, false),
        (&[b'a'; 65], 0, false),
        (b"a\n", 0, false),
        (b"\x7f", 0, false),
        (b"a", -631_152_001, false),
        (b"a", 253_402_300_800, false),
    ];
    for (name, until, writable) in &drafts {
        assert!(rt;
            is_writable(rt.alloc(), name, *until)? == *writable,
            "{name:?} until {until}"
        );
    }
    Ok(())
}
