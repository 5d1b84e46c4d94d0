//! A view of a certificate.

ghost use Rattle.std.specs.Prelude.{◌≡◌, Ok};
ghost use Rattle.der_view.specs.Der.{part};
ghost use Rattle.der_view.specs.Reading.{Gives};
ghost use Rattle.cert_view.specs.Certificate.{signature, fields_in, certificate, Fields};
ghost use Rattle.cert_view.specs.Cert.{fields};

use crate::cert_check::CertCheck;
use crate::cert_fault::CertFault;
use crate::first_fault::both;
use crate::root::Root;
use crate::shapes::{element_of, fault_at, tagged, three_in};
use crate::signatures::signature_of;
use crate::tbs::{TbsFields, algorithm, to_be_signed};
use crate::verify_ask::VerifyAsk;
use der_view::Der;
use key_device::Point;

/// A certificate of X.509 version 3 (RFC 5280, 4.1), borrowed from the bytes that spell it: its key
/// is a point of the curve P-256, and it is signed with ECDSA and SHA-256.
#[derive(Clone, Copy)]
pub struct Cert<'a> {
    pub(crate) tbs: TbsFields<'a>,
    pub(crate) message: &'a [u8],
    pub(crate) signature: [u8; 64],
}

/// r and s of the signature, each in 32 bytes.
fn signature(element: Der<'_>) -> Result<[u8; 64], CertFault>
    ensures { result ≡ signature (part element.entry) }
{
    let bits = tagged(0x03, element)?;
    match signature_of(bits.body()) {
        Some(pair) => Ok(pair),
        None => Err(fault_at(CertCheck::Signature, bits)),
    }
}

/// What the three parts of a certificate say.
fn cert_of<'a>(first: Der<'a>, second: Der<'a>, third: Der<'a>) -> Result<Cert<'a>, CertFault>
    ensures { Gives fields result (fields_in (part first.entry, part second.entry, part third.entry)) }
{
    let others = both(algorithm(second), signature(third));
    match both(to_be_signed(first), others) {
        Ok((tbs, marks)) => {
            let signature = marks.1;
            Ok(Cert {
                tbs,
                message: first.raw(),
                signature,
            })
        }
        Err(fault) => Err(fault),
    }
}

impl<'a> Cert<'a> {
    ghost use Rattle.cert_view.specs.Root.{listed};

    /// The certificate that all of the bytes spell, else the first check that fails, in their
    /// order, and the first place where it does.
    #[tactic(auto, unfolding(crate::specs::Certificate::certificate))]
    pub fn read(bytes: &'a [u8]) -> Result<Cert<'a>, CertFault>
        ensures { Gives fields result (certificate bytes.now) }
    {
        let (first, second, third) = three_in(0x30, element_of(bytes)?)?;
        cert_of(first, second, third)
    }

    /// The bytes of the subject's name.
    pub fn subject(&self) -> &'a [u8]
        ensures { result.now ≡ (fields self.now).tbs.subject }
    {
        self.tbs.subject
    }

    /// The bytes of the issuer's name.
    pub fn issuer(&self) -> &'a [u8]
        ensures { result.now ≡ (fields self.now).tbs.issuer }
    {
        self.tbs.issuer
    }

    /// The subject's public key.
    pub fn key(&self) -> &Point
        ensures { result.now ≡ (fields self.now).tbs.key }
    {
        &self.tbs.key
    }

    /// The first second of the validity, in seconds since 1970.
    pub fn not_before(&self) -> i64
        ensures { result ≡ (fields self.now).tbs.not_before }
    {
        self.tbs.not_before
    }

    /// The last second of the validity, in seconds since 1970.
    pub fn not_after(&self) -> i64
        ensures { result ≡ (fields self.now).tbs.not_after }
    {
        self.tbs.not_after
    }

    /// Whether the extended key usage holds the purpose of a document signer (ISO/IEC 18013-5,
    /// annex B).
    pub fn signs_documents(&self) -> bool
        ensures { result ≡ (fields self.now).tbs.signs_documents }
    {
        self.tbs.signs_documents
    }

    /// The question whether a root signed the certificate: the root's key, the to-be-signed part as
    /// it stands, and the signature.
    pub fn asks(&self, root: &Root) -> VerifyAsk<'a>
        ensures public { (f : Fields) → certificate (listed root.now).bytes ≡ Ok f
            → result.public ≡ f.tbs.key }
        ensures message { result.message.now ≡ (fields self.now).message }
        ensures signature { result.signature ≡ (fields self.now).signature }
    {
        let cert = root.cert();
        let public = *cert.key();
        let signature = self.signature;
        VerifyAsk {
            public,
            message: self.message,
            signature,
        }
    }
}
