//! Issuing between toy key devices with dice that count. The packages and certificates are those that
//! `tests/vectors/issued_packages` writes.

use issue_spec::Spec;
use issuing::{IssueFault, Issued, issue};
use key_device::{Recorder, ToyDevice};
use mdoc_outside::{CountDice, Dealt, Dice, ListDice};
use sha2::{Digest, Sha256};
use std::alloc::Global;
use std::test::*;

/// Headers of two copies with a new signer.
const NEW_SIGNER: [&str; 1] = ["type d.e\nauth mac\ncopies 2\nsigner new\n"];

/// Headers of one copy with the signer of key 9.
const KNOWN_SIGNER: [&str; 3] = ["type d.e\nauth sig\ncopies 1\nsigner 9 ", SIGNER, "\n"];

/// Times, and elements of two namespaces.
const REST: &str =
    "signed 2024-01-01T00:00:00Z\nfrom 2024-01-02T00:00:00Z\nuntil 2059-12-31T23:59:59Z\nupdate 2025-01-01T00:00:00Z\nelement n a text x\nelement m b uint 7\nelement n c bool true\nelement n d bytes 000000000000000000000000000000000000000000000000000000000000\n";

/// The SHA-256 of the package with the new signer, and of that with the known one.
const DIGEST_OF_NEW: &str = "7bb1951b340dabf4f38890eaf4d60d9aab6ea30107fc69d144d4c6d15cd473eb";

const DIGEST_OF_KNOWN: &str = "21d0bc09ecddb821325b4918f15cbd02b344c5f1e219ec287799a50d1853d73e";

/// The certificates of a new root and of its signer.
const ROOT: &str = "\
    308201103081b7a003020102020101300a06082a8648ce3d0403023011310f300d06035504030c0669737375\
    65723020170d3234303130323030303030305a180f32303539313233313233353935395a3011310f300d0603\
    5504030c066973737565723059301306072a8648ce3d020106082a8648ce3d030107034200046668b11be836\
    4e852a952b3f2e849b72cf07597aad51754a6a96fad583a54cbb7843cb69ad71905e1ec868f6a1b3ce76fd0b\
    e173e94dc0f92976dbe04f6f27f2300a06082a8648ce3d04030203480030450221008f248c8efce36bdcefd8\
    1312bde19f9f6774342f24177a54b7acb1bf106de878022049c50a83a248a0bd1dfe6bf3ea5c053e5611d075\
    f01a3e3c59a4e980c6e296f6";

const SIGNER: &str = "\
    308201293081cfa003020102020102300a06082a8648ce3d0403023011310f300d06035504030c0669737375\
    65723020170d3234303130323030303030305a180f32303539313233313233353935395a3011310f300d0603\
    5504030c067369676e65723059301306072a8648ce3d020106082a8648ce3d03010703420004a52faac6f0e8\
    82376827d14bcac87ecc63e8a612edb847f0589074b961bc5cfdec404314f97b4e956e6373b9e7ddc603c029\
    8923635e0b17b01c76530d82b6d1a316301430120603551d25040b3009060728818c5d050102300a06082a86\
    48ce3d0403020349003046022100d7de43f4dd6de624fe028dbffe926043b43f23850824c500319ca579a809\
    4d2a022100cc07d518b29046011bb264203fb4667dab64aed59f7cc19b2f1b17ffc4cf746a";

fn spec_of(alloc: Global, headers: &[&str]) -> Option<Spec> {
    let mut text = String::new(alloc);
    for header in headers {
        text.push_str(header).ok()?;
    }
    text.push_str(REST).ok()?;
    Spec::read(alloc, text.as_bytes()).ok()
}

/// What is issued, with the first keys of the holder's and of the issuer's device.
fn issued<R: Dice + Drop>(
    alloc: Global,
    headers: &[&str],
    first_keys: (u32, u32),
    dice: R,
) -> Option<Result<Issued, IssueFault>> {
    let spec = spec_of(alloc, headers)?;
    let mut holder = Recorder::new(alloc, ToyDevice::new(1, 1, first_keys.0));
    let mut issuer = Recorder::new(alloc, ToyDevice::new(1, 2, first_keys.1));
    let mut dice = Dealt::new(alloc, dice);
    Some(issue(alloc, &spec, &mut holder, &mut issuer, &mut dice))
}

/// Whether bytes are those of digits.
fn is_hex(alloc: Global, bytes: &[u8], digits: &str) -> bool {
    match hex::encode(alloc, bytes) {
        Ok(text) => text.as_str() == digits,
        Err(_) => false,
    }
}

/// Whether what is issued with that dice is the package of that digest, with that root, if any.
fn is_issued(alloc: Global, headers: &[&str], digest: &str, root: Option<&str>) -> bool {
    let dice = CountDice::new(u64::MAX - 2);
    match issued(alloc, headers, (5, u32::MAX - 1), dice) {
        Some(Ok(what)) => {
            let package = Sha256::digest(what.package.as_slice());
            let rooted = match (&what.root, root) {
                (Some(made), Some(digits)) => is_hex(alloc, made.as_slice(), digits),
                (None, None) => true,
                _ => false,
            };
            is_hex(alloc, &package, digest) && rooted
        }
        _ => false,
    }
}

/// Whether it is refused by that fault, with first keys, and dice of so many words.
fn is_refused(
    alloc: Global,
    headers: &[&str],
    first_keys: (u32, u32),
    words: usize,
    fault: IssueFault,
) -> bool {
    let Ok(words) = vec![in alloc; 7; words] else {
        return false;
    };
    let dice = ListDice::new(words, Vec::new(alloc));
    match issued(alloc, headers, first_keys, dice) {
        Some(Err(answer)) => answer == fault,
        _ => false,
    }
}

#[test]
fn packages_are_those_of_another_issuer(rt: HostRuntime) {
    let alloc = rt.alloc();
    assert!(rt; is_issued(alloc, &NEW_SIGNER, DIGEST_OF_NEW, Some(ROOT)));
    assert!(rt; is_issued(alloc, &KNOWN_SIGNER, DIGEST_OF_KNOWN, None));
}

/// Two copies of four elements take 32 words.
#[test]
fn dice_fail_at_each_word(rt: HostRuntime) {
    for words in 0..32 {
        assert!(rt;
            is_refused(rt.alloc(), &NEW_SIGNER, (5, 7), words, IssueFault::Dice),
            "{words}"
        );
    }
    assert!(rt; !is_refused(rt.alloc(), &NEW_SIGNER, (5, 7), 32, IssueFault::Dice));
}

#[test]
fn devices_fail_at_their_last_key(rt: HostRuntime) {
    let alloc = rt.alloc();
    let last = u32::MAX;
    assert!(rt; is_refused(alloc, &NEW_SIGNER, (last, 7), 32, IssueFault::Device));
    assert!(rt; is_refused(alloc, &NEW_SIGNER, (5, last), 32, IssueFault::Device));
    assert!(rt; !is_refused(alloc, &KNOWN_SIGNER, (last, last), 16, IssueFault::Device));
}
