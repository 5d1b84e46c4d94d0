//! A spec: the description of documents that are to be issued.

ghost use Rattle.std.specs.Prelude.{◌≡◌, IfOk};
ghost use Rattle.issue_spec.specs.SpecFacts.{IsSpec};
ghost use Rattle.issue_spec.specs.SpecFile.{ReadsSpec, spec_of};

use crate::spec_element::SpecElement;
use crate::spec_fault::SpecFault;
use crate::spec_fields::SpecFields;
use crate::spec_lines::spec_line;
use crate::spec_reading::SpecReading;
use crate::spec_signer::SpecSigner;
use mdoc_outside::{line_count, lines_of};
use std::alloc::Global;

/// What the issuing authority puts into the copies of a document.
#[derive(Drop)]
pub struct Spec {
    pub(crate) fields: SpecFields,
    ghost ranges: { IsSpec fields },
}

impl Spec {
    ghost use Rattle.issue_spec.specs.Spec.{fields};

    /// What a spec file says, else its first fault.
    #[tactic(auto, using(crate::proofs::SpecLaws::spec_is))]
    pub fn read(alloc: Global, text: &[u8]) -> Result<Spec, SpecFault>
        ensures exact { ReadsSpec fields result (spec_of text.now) }
        ensures ranges { IfOk result (λ spec. IsSpec (fields spec)) }
    {
        let mut reading = SpecReading::new(alloc);
        for line in lines_of(text) {
            let said = spec_line(alloc, &line)?;
            reading = reading.with_line(alloc, text, line.number(), said)?;
        }
        let fields = reading.finish(line_count(text).max(1))?;
        Ok(Spec { fields })
    }

    /// The document type.
    pub fn doc_type(&self) -> &[u8]
        ensures { result.now ≡ (fields self.now).doc_type }
    {
        self.fields.doc_type.as_slice()
    }

    /// Whether the device authenticates the copies by a MAC, and not by a signature (ISO/IEC 18013-5, 9.1.3).
    pub fn uses_mac(&self) -> bool
        ensures { result ≡ (fields self.now).uses_mac }
    {
        self.fields.uses_mac
    }

    /// How many copies are issued, 1 to 64.
    pub fn copies(&self) -> u32
        ensures { result ≡ (fields self.now).copies }
    {
        self.fields.copies
    }

    /// Who signs the copies.
    pub fn signer(&self) -> &SpecSigner
        ensures { result.now ≡ (fields self.now).signer }
    {
        &self.fields.signer
    }

    /// When the copies are signed, in seconds since 1970.
    pub fn signed(&self) -> i64
        ensures { result ≡ (fields self.now).signed }
    {
        self.fields.signed
    }

    /// From when on the copies are valid, in seconds since 1970.
    pub fn from(&self) -> i64
        ensures { result ≡ (fields self.now).from }
    {
        self.fields.from
    }

    /// Until when the copies are valid, in seconds since 1970.
    pub fn until(&self) -> i64
        ensures { result ≡ (fields self.now).until }
    {
        self.fields.until
    }

    /// When the copies are to be issued anew, in seconds since 1970, if that is said.
    pub fn update(&self) -> Option<i64>
        ensures { result ≡ (fields self.now).update }
    {
        self.fields.update
    }

    /// The elements, in the order of the file.
    pub fn elements(&self) -> &[SpecElement]
        ensures { result.now ≡ (fields self.now).elements }
    {
        self.fields.elements.as_slice()
    }
}
