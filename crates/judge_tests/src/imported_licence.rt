//! A licence in two copies with a new signer, imported into the empty store.

use cert_view::Roots;
use doc_store::{EMPTY_STORE, Store};
use issue_spec::Spec;
use issuing::{Issued, issue};
use key_device::{Recorder, ReplayDevice, ToyDevice};
use mdoc_outside::{CountDice, Dealt, Octets};
use package_import::{ImportFault, Imported, import_package};
use std::alloc::Global;
use std::process::Abort;
use verdict_model::{DocCheck, ElementCheck, PackageVerdict};

/// The licence, up to its portrait, and after it.
const BEFORE_PORTRAIT: &str = "type org.iso.18013.5.1.mDL
auth sig
copies 2
signer new
signed 2024-01-01T00:00:00Z
from 2024-01-01T00:00:00Z
until 2029-01-01T00:00:00Z
element org.iso.18013.5.1 family_name text Muster
element org.iso.18013.5.1 given_name text Erika
element org.iso.18013.5.1 birth_date date 1990-01-01
element org.iso.18013.5.1 issue_date date 2024-01-01
element org.iso.18013.5.1 expiry_date date 2029-01-01
element org.iso.18013.5.1 issuing_country text UT
element org.iso.18013.5.1 issuing_authority text Example
element org.iso.18013.5.1 document_number text D0001
element org.iso.18013.5.1 portrait bytes ";

const AFTER_PORTRAIT: &str = "
element org.iso.18013.5.1 driving_privileges cbor 80
element org.iso.18013.5.1 un_distinguishing_sign text UTO
element org.iso.18013.5.1 age_over_18 bool true
";

/// The bytes of the portrait, each 0.
const PORTRAIT: usize = 30_000;

/// 2024-07-01T00:00:00Z, and a second after the licence's last one.
const WITHIN: i64 = 1_719_792_000;

const TOO_LATE: i64 = 1_861_920_001;

fn licence(alloc: Global) -> Option<Issued> {
    let mut text = String::new(alloc);
    text.push_str(BEFORE_PORTRAIT).ok()?;
    for _ in 0..PORTRAIT {
        text.push_str("00").ok()?;
    }
    text.push_str(AFTER_PORTRAIT).ok()?;
    let spec = Spec::read(alloc, text.as_bytes()).ok()?;
    let mut holder = Recorder::new(alloc, ToyDevice::new(1, 1, 5));
    let mut issuer = Recorder::new(alloc, ToyDevice::new(1, 2, 7));
    let mut dice = Dealt::new(alloc, CountDice::new(0));
    issue(alloc, &spec, &mut holder, &mut issuer, &mut dice).ok()
}

/// The roots file that lists the issuer's root.
fn roots_of(alloc: Global, issued: &Issued) -> Option<Roots> {
    let root = issued.root.as_ref()?;
    let digits = hex::encode(alloc, root.as_slice()).ok()?;
    let mut text = String::new(alloc);
    text.push_str("root issuer ").ok()?;
    text.push_str(digits.as_str()).ok()?;
    Roots::read(alloc, text.as_bytes()).ok()
}

/// What the import of a package into the empty store comes to.
fn imported(
    alloc: Global,
    received: &[u8],
    roots: &Roots,
    moment: i64,
) -> Option<Result<Imported, ImportFault>> {
    let own = Store::read(alloc, &EMPTY_STORE).ok()?;
    let received = Store::read(alloc, received).ok()?;
    let mut reader = Recorder::new(alloc, ToyDevice::new(1, 2, 9));
    Some(import_package(alloc, &own, &received, roots, moment, &mut reader))
}

/// What is found of the one document of the package.
#[derive(Drop)]
enum Finding {
    /// It is accepted, and the merged store is the package.
    Accepted,
    /// A check of it fails.
    Refused(DocCheck),
    /// The digest of its portrait is another one.
    OtherPortrait,
}

/// Whether two checks without values are the same.
fn is_check(found: DocCheck, wanted: DocCheck) -> bool {
    match (found, wanted) {
        (DocCheck::CertUntrusted, DocCheck::CertUntrusted) => true,
        (DocCheck::CertTime, DocCheck::CertTime) => true,
        _ => false,
    }
}

/// Whether that is found of the document, which has two copies.
fn is_found(verdict: &PackageVerdict, finding: &Finding) -> bool {
    if verdict.doc_type.as_slice() != b"org.iso.18013.5.1.mDL".as_slice() || verdict.copies != 2 {
        return false;
    }
    match (&verdict.refused, &verdict.item, finding) {
        (None, None, Finding::Accepted) => true,
        (Some(check), None, Finding::Refused(wanted)) => is_check(*check, *wanted),
        (None, Some((element, ElementCheck::DigestDiffers { .. })), Finding::OtherPortrait) => {
            element.name.as_slice() == b"portrait".as_slice()
        }
        _ => false,
    }
}

/// Whether the import comes to that.
fn is_outcome(
    found: Option<Result<Imported, ImportFault>>,
    finding: &Finding,
    package: &[u8],
) -> bool {
    let Some(Ok(imported)) = found else {
        return false;
    };
    let merged = match (&imported.merged, finding) {
        (Some(bytes), Finding::Accepted) => bytes.as_slice() == package,
        (None, Finding::Refused(_)) | (None, Finding::OtherPortrait) => true,
        _ => false,
    };
    let found = match imported.verdicts.as_slice() {
        [only] => is_found(only, finding),
        _ => false,
    };
    merged && found
}

/// The package with one byte changed in the portrait of one of its copies, the first or the second.
fn with_other_portrait(alloc: Global, package: &[u8], copy: usize) -> Option<Octets> {
    let mut bytes = Vec::new(alloc);
    let mut zeros: usize = 0;
    let mut portraits: usize = 0;
    for byte in package {
        zeros = if *byte == 0 {
            zeros.saturating_add(1)
        } else {
            0
        };
        let mut changed = *byte;
        if zeros == PORTRAIT / 2 {
            if portraits == copy {
                changed = 1;
                zeros = 0;
            }
            portraits = portraits.saturating_add(1);
        }
        bytes.push(changed).ok()?;
    }
    Some(Octets::from_vec(bytes))
}

#[test]
fn licence_is_imported(rt: HostRuntime) {
    let alloc = rt.alloc();
    let issued = licence(alloc).expect(&rt, "issued");
    let roots = roots_of(alloc, &issued).expect(&rt, "listed");
    let package = issued.package.as_slice();
    let result = imported(alloc, package, &roots, WITHIN);
    assert!(rt; is_outcome(result, &Finding::Accepted, package));
}

#[test]
fn untrusted_and_late_signers_are_refused(rt: HostRuntime) {
    let alloc = rt.alloc();
    let issued = licence(alloc).expect(&rt, "issued");
    let roots = roots_of(alloc, &issued).expect(&rt, "listed");
    let none = Roots::read(alloc, b"").expect(&rt, "read");
    let package = issued.package.as_slice();
    let untrusted = Finding::Refused(DocCheck::CertUntrusted);
    assert!(rt; is_outcome(imported(alloc, package, &none, WITHIN), &untrusted, package));
    let late = Finding::Refused(DocCheck::CertTime);
    assert!(rt; is_outcome(imported(alloc, package, &roots, TOO_LATE), &late, package));
    assert!(rt; is_outcome(imported(alloc, package, &roots, 0), &late, package));
}

#[test]
fn other_portrait_of_each_copy_is_refused(rt: HostRuntime) {
    let alloc = rt.alloc();
    let issued = licence(alloc).expect(&rt, "issued");
    let roots = roots_of(alloc, &issued).expect(&rt, "listed");
    for copy in 0..2 {
        let other = with_other_portrait(alloc, issued.package.as_slice(), copy).expect(
            &rt, "changed",
        );
        let result = imported(alloc, other.as_slice(), &roots, WITHIN);
        assert!(rt; is_outcome(result, &Finding::OtherPortrait, other.as_slice()));
    }
}

#[test]
fn device_that_fails_is_told(rt: HostRuntime) {
    let alloc = rt.alloc();
    let issued = licence(alloc).expect(&rt, "issued");
    let roots = roots_of(alloc, &issued).expect(&rt, "listed");
    let own = Store::read(alloc, &EMPTY_STORE).expect(&rt, "read");
    let received = Store::read(alloc, issued.package.as_slice()).expect(&rt, "read");
    let silent = ReplayDevice::read(alloc, b"").expect(&rt, "read");
    let mut reader = Recorder::new(alloc, silent);
    let result = import_package(alloc, &own, &received, &roots, WITHIN, &mut reader);
    assert!(rt; matches!(result, Err(ImportFault::Device)));
}
