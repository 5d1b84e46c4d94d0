//! A spec file that is being read, line by line.

ghost use Rattle.std.specs.Prelude.{◌≡◌, ◌≤◌, [], ◌∷◌, ◌++◌, None, Ok, IfOk, IfSome, IsTrue, length, nat_lt};
ghost use Rattle.mdoc_outside.specs.Lines.{file_lines};
ghost use Rattle.issue_spec.specs.SpecChecks.{first_failed, element_checks, is_bad_header, is_bad_element};
ghost use Rattle.issue_spec.specs.SpecEnd.{collected};
ghost use Rattle.issue_spec.specs.SpecFacts.{is_element, is_line, IsCopy};
ghost use Rattle.issue_spec.specs.SpecFile.{ReadsSpec, finished, has_new_signer, with_header_line, with_element, with_element_line, with_line};
ghost use Rattle.issue_spec.specs.SpecNamespaces.{namespaces_of, with_namespace};
ghost use Rattle.issue_spec.specs.SpecSoFar.{nothing};

use crate::spec_check::SpecCheck;
use crate::spec_element::SpecElement;
use crate::spec_element_checks::{broken_row, has_element, has_namespace};
use crate::spec_fault::SpecFault;
use crate::spec_fields::SpecFields;
use crate::spec_header::SpecHeader;
use crate::spec_headers::SpecHeaders;
use crate::spec_line::SpecLine;
use crate::spec_lines::has_new_signer;
use crate::spec_whole_checks::whole_check;
use mdoc_outside::{LimitName, MOST_ITEMS, MOST_NAMESPACES, MOST_VALUE_BYTES, Octets, Rows};
use std::alloc::{AllocError, Global};

/// How far a spec file was read: its header lines, its elements, and the namespaces of these in the order
/// of first appearance.
#[derive(Drop)]
pub(crate) struct SpecReading {
    pub(crate) headers: SpecHeaders,
    pub(crate) elements: Vec<SpecElement>,
    pub(crate) namespaces: Vec<Octets>,
    ghost listed: { namespaces.items ≡ namespaces_of elements.items },
    ghost copy: { IsCopy elements.items },
}

/// The namespaces with one more, where it isn't there.
fn with_namespace(
    alloc: Global,
    mut namespaces: Vec<Octets>,
    ns: &[u8],
) -> Result<Vec<Octets>, SpecFault>
    ensures { ReadsSpec (λ v. v.items) result (Ok (with_namespace namespaces.items ns.now)) }
{
    if has_namespace(&namespaces, ns) {
        return Ok(namespaces);
    }
    namespaces.push(Octets::copy_of(alloc, ns)?)?;
    Ok(namespaces)
}

/// Whether there is one namespace too many with one more, where it isn't there.
fn is_one_too_many(namespaces: &[Octets], ns: &[u8]) -> bool
    requires { length namespaces.now ≤ 16 }
    ensures { result ≡ nat_lt 16 (length (with_namespace namespaces.now ns.now)) }
{
    if has_namespace(namespaces, ns) {
        return false;
    }
    namespaces.len() >= MOST_NAMESPACES
}

/// All that has to be there, with one element or more.
fn collected(headers: SpecHeaders, elements: Vec<SpecElement>) -> Option<SpecFields>
    ensures { result ≡ collected headers elements.items }
{
    let SpecHeaders {
        doc_type,
        uses_mac,
        copies,
        signer,
        signed,
        from,
        until,
        update,
    } = headers;
    let doc_type = doc_type?;
    let uses_mac = uses_mac?;
    let copies = copies?;
    let signer = signer?;
    let signed = signed?;
    let from = from?;
    let until = until?;
    if elements.is_empty() {
        return None;
    }
    Some(SpecFields {
        doc_type,
        uses_mac,
        copies,
        signer,
        signed,
        from,
        until,
        update,
        elements: Rows::from_vec(elements),
    })
}

impl SpecReading {
    ghost use Rattle.issue_spec.specs.SpecReading.{so_far};

    #[tactic(auto, using(crate::proofs::SpecElementLemmas::nothing_is_copy))]
    pub(crate) fn new(alloc: Global) -> SpecReading
        ensures { so_far result ≡ nothing }
    {
        SpecReading {
            headers: SpecHeaders::none(),
            elements: Vec::new(alloc),
            namespaces: Vec::new(alloc),
        }
    }

    /// Whether a header line of a file is bad here.
    fn is_bad_header(
        &self,
        alloc: Global,
        text: &[u8],
        header: &SpecHeader,
    ) -> Result<bool, AllocError>
        ensures { IfOk result (λ bad. bad ≡ is_bad_header (has_new_signer (file_lines text.now)) header.now (so_far self.now)) }
    {
        if self.headers.is_given(header) || !self.elements.is_empty() {
            return Ok(true);
        }
        if !header.says_early() {
            return Ok(false);
        }
        has_new_signer(alloc, text)
    }

    /// With one more header line.
    fn with_header(
        self,
        alloc: Global,
        text: &[u8],
        number: u64,
        header: SpecHeader,
    ) -> Result<SpecReading, SpecFault>
        ensures { ReadsSpec so_far result (with_header_line (has_new_signer (file_lines text.now)) number header (so_far self)) }
    {
        if self.is_bad_header(alloc, text, &header)? {
            return Err(SpecFault::Form(SpecCheck::Line, number));
        }
        let SpecReading {
            headers,
            elements,
            namespaces,
        } = self;
        Ok(SpecReading {
            headers: headers.with_header(header),
            elements,
            namespaces,
        })
    }

    /// Whether an element line is bad here.
    fn is_bad_element(&self, element: &SpecElement) -> bool
        ensures { result ≡ is_bad_element element.now (so_far self.now) }
    {
        !self.headers.are_complete() || has_element(&self.elements, element)
    }

    /// Whether one namespace too many is there with that of an element.
    #[tactic(auto, using(crate::proofs::SpecNamespaceLemmas::one_more))]
    fn has_too_many_namespaces(&self, element: &SpecElement) -> bool
        ensures { result ≡ nat_lt 16 (length (namespaces_of ((so_far self.now).elements ++ element.now ∷ []))) }
    {
        is_one_too_many(&self.namespaces, element.ns.as_slice())
    }

    /// The first check of an element line that fails here.
    fn element_check(&self, element: &SpecElement) -> Option<SpecCheck>
        requires { IsTrue (is_element element.now) }
        ensures { result ≡ first_failed (element_checks element.now (so_far self.now)) }
    {
        if self.is_bad_element(element) {
            return Some(SpecCheck::Line);
        }
        if let Some(check) = broken_row(element) {
            return Some(check);
        }
        if self.has_too_many_namespaces(element) {
            return Some(SpecCheck::Limit(LimitName::Namespaces, MOST_NAMESPACES as u64 + 1));
        }
        if self.elements.len() >= MOST_ITEMS {
            return Some(SpecCheck::Limit(LimitName::Items, MOST_ITEMS as u64 + 1));
        }
        let bytes = element.value.as_slice().len();
        if bytes > MOST_VALUE_BYTES {
            return Some(SpecCheck::Limit(LimitName::Value, bytes as u64));
        }
        None
    }

    /// With one more element, of which no check fails.
    fn with_element(self, alloc: Global, element: SpecElement) -> Result<SpecReading, SpecFault>
        requires element { IsTrue (is_element element) }
        requires room { first_failed (element_checks element (so_far self)) ≡ None }
        ensures { ReadsSpec so_far result (Ok (with_element element (so_far self))) }
    {
        let SpecReading {
            headers,
            mut elements,
            namespaces,
        } = self;
        let namespaces = with_namespace(alloc, namespaces, element.ns.as_slice())?;
        elements.push(element)?;
        Ok(SpecReading {
            headers,
            elements,
            namespaces,
        })
    }

    /// With one more element line.
    fn with_element_line(
        self,
        alloc: Global,
        number: u64,
        element: SpecElement,
    ) -> Result<SpecReading, SpecFault>
        requires { IsTrue (is_element element) }
        ensures { ReadsSpec so_far result (with_element_line number element (so_far self)) }
    {
        match self.element_check(&element) {
            Some(check) => Err(SpecFault::Form(check, number)),
            None => self.with_element(alloc, element),
        }
    }

    /// With one more line of a file, by what it says.
    pub(crate) fn with_line(
        self,
        alloc: Global,
        text: &[u8],
        number: u64,
        said: Option<SpecLine>,
    ) -> Result<SpecReading, SpecFault>
        requires { IfSome said (λ l. IsTrue (is_line l)) }
        ensures { ReadsSpec so_far result (with_line (has_new_signer (file_lines text.now)) number said (so_far self)) }
    {
        match said {
            None => Err(SpecFault::Form(SpecCheck::Line, number)),
            Some(SpecLine::Header(header)) => self.with_header(alloc, text, number, header),
            Some(SpecLine::Element(element)) => self.with_element_line(alloc, number, element),
        }
    }

    /// What the file says, where it ends here, `last` being the number of its last line.
    pub(crate) fn finish(self, last: u64) -> Result<SpecFields, SpecFault>
        ensures exact { ReadsSpec (λ fields. fields) result (finished last (so_far self)) }
        ensures copy { IfOk result (λ fields. IsCopy fields.elements) }
    {
        let SpecReading {
            headers,
            elements,
            ..
        } = self;
        let Some(fields) = collected(headers, elements) else {
            return Err(SpecFault::Form(SpecCheck::Line, last));
        };
        match whole_check(&fields) {
            Some(check) => Err(SpecFault::Form(check, 0)),
            None => Ok(fields),
        }
    }
}
