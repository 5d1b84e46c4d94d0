//! The header lines of a spec file that were read.

ghost use Rattle.std.specs.Prelude.{◌≡◌};

use crate::spec_header::SpecHeader;
use crate::spec_signer::SpecSigner;
use mdoc_outside::Octets;

/// What the header lines so far say. Moments are in seconds since 1970.
#[derive(Drop)]
pub(crate) struct SpecHeaders {
    pub(crate) doc_type: Option<Octets>,
    pub(crate) uses_mac: Option<bool>,
    pub(crate) copies: Option<u32>,
    pub(crate) signer: Option<SpecSigner>,
    pub(crate) signed: Option<i64>,
    pub(crate) from: Option<i64>,
    pub(crate) until: Option<i64>,
    pub(crate) update: Option<i64>,
}

impl SpecHeaders {
    ghost use Rattle.issue_spec.specs.SpecSoFar.{no_headers, is_given, with_header, are_complete};

    pub(crate) fn none() -> SpecHeaders
        ensures { result ≡ no_headers }
    {
        SpecHeaders {
            doc_type: None,
            uses_mac: None,
            copies: None,
            signer: None,
            signed: None,
            from: None,
            until: None,
            update: None,
        }
    }

    /// Whether there is a header of the same keyword.
    pub(crate) fn is_given(&self, header: &SpecHeader) -> bool
        ensures { result ≡ is_given header.now self.now }
    {
        match header {
            SpecHeader::DocType(_) => self.doc_type.is_some(),
            SpecHeader::UsesMac(_) => self.uses_mac.is_some(),
            SpecHeader::Copies(_) => self.copies.is_some(),
            SpecHeader::Signer(_) => self.signer.is_some(),
            SpecHeader::Signed(_) => self.signed.is_some(),
            SpecHeader::From(_) => self.from.is_some(),
            SpecHeader::Until(_) => self.until.is_some(),
            SpecHeader::Update(_) => self.update.is_some(),
        }
    }

    /// With one header more.
    pub(crate) fn with_header(mut self, header: SpecHeader) -> SpecHeaders
        ensures { result ≡ with_header header self }
    {
        match header {
            SpecHeader::DocType(doc_type) => self.doc_type = Some(doc_type),
            SpecHeader::UsesMac(uses_mac) => self.uses_mac = Some(uses_mac),
            SpecHeader::Copies(copies) => self.copies = Some(copies),
            SpecHeader::Signer(signer) => self.signer = Some(signer),
            SpecHeader::Signed(moment) => self.signed = Some(moment),
            SpecHeader::From(moment) => self.from = Some(moment),
            SpecHeader::Until(moment) => self.until = Some(moment),
            SpecHeader::Update(moment) => self.update = Some(moment),
        }
        self
    }

    /// Whether all headers are there that have to be: all but the time of the update.
    pub(crate) fn are_complete(&self) -> bool
        ensures { result ≡ are_complete self.now }
    {
        self.doc_type.is_some()
            && self.uses_mac.is_some()
            && self.copies.is_some()
            && self.signer.is_some()
            && self.signed.is_some()
            && self.from.is_some()
            && self.until.is_some()
    }
}
