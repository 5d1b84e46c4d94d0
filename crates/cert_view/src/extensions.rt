//! Extensions (RFC 5280, 4.2), of which the extended key usage (4.2.1.12) is read.

ghost use Rattle.std.specs.Prelude.{◌≡◌, Ok, None, option_map};
ghost use Rattle.std.specs.List.{list_all, list_any};
ghost use Rattle.std.specs.Str.{bytes_eq};
ghost use Rattle.der_view.specs.Der.{part, seen};
ghost use Rattle.der_view.specs.PartsLeft.{left};
ghost use Rattle.cert_view.specs.Extensions.{is_identifier, is_document_signer, purposes, after_optional, named_value, said_purposes, said_by_parts, extension, said_once, with_extension, with_extensions};

use crate::cert_check::CertCheck;
use crate::cert_fault::CertFault;
use crate::first_fault::both;
use crate::shapes::{all_read, fault_at, front, has_tag, is_empty};
use crate::signatures::inner_parts;
use der_view::{Der, DerFault, Parts};

/// The extended key usage, 2.5.29.37.
const EXTENDED_KEY_USAGE: [u8; 3] = [0x55, 0x1d, 0x25];

/// The key purpose of a document signer, 1.0.18013.5.1.2 (ISO/IEC 18013-5, annex B).
const DOCUMENT_SIGNER: [u8; 7] = [0x28, 0x81, 0x8c, 0x5d, 0x05, 0x01, 0x02];

fn is_identifier(part: Result<Der<'_>, DerFault>) -> bool
    ensures { result ≡ is_identifier (seen part.entry) }
{
    match part {
        Ok(element) => has_tag(0x06, element),
        Err(_) => false,
    }
}

fn is_document_signer(part: Result<Der<'_>, DerFault>) -> bool
    ensures { result ≡ is_document_signer (seen part.entry) }
{
    match part {
        Ok(element) => element.body() == DOCUMENT_SIGNER.as_slice(),
        Err(_) => false,
    }
}

fn are_identifiers(parts: Parts<'_>) -> bool
    ensures { result ≡ list_all is_identifier (left parts.entry) }
{
    for part in parts {
        if !is_identifier(part) {
            return false;
        }
    }
    true
}

fn holds_document_signer(parts: Parts<'_>) -> bool
    ensures { result ≡ list_any is_document_signer (left parts.entry) }
{
    for part in parts {
        if is_document_signer(part) {
            return true;
        }
    }
    false
}

/// Whether the purposes hold that of a document signer, where they are a SEQUENCE of identifiers.
fn purposes(value: &[u8]) -> Option<bool>
    ensures { result ≡ purposes value.now }
{
    let identifiers = inner_parts(0x30, value)?;
    if are_identifiers(identifiers) {
        Some(holds_document_signer(identifiers))
    } else {
        None
    }
}

/// The parts after the one in front, where it has that tag, else all.
pub(crate) fn after_optional(tag: u8, parts: Parts<'_>) -> Parts<'_>
    ensures { left result ≡ after_optional tag (left parts.entry) }
{
    match front(parts) {
        Some((first, rest)) if has_tag(tag, first) => rest,
        Some(_) => parts,
        None => parts,
    }
}

/// The identifier and the value of an extension, between which its criticality may stand.
fn named_value<'a>(parts: Parts<'a>) -> Option<(Der<'a>, Der<'a>)>
    ensures { option_map (λ x. (part x.0, part x.1)) result ≡ named_value (left parts.entry) }
{
    let (name, rest) = front(parts)?;
    let (value, rest) = front(after_optional(0x01, rest))?;
    if is_empty(rest) && has_tag(0x06, name) && has_tag(0x04, value) {
        Some((name, value))
    } else {
        None
    }
}

/// What an extension says of the purposes: nothing, where it is another one.
fn said_purposes(name: Der<'_>, value: Der<'_>) -> Option<Option<bool>>
    ensures { result ≡ said_purposes (part name.entry, part value.entry) }
{
    if name.body() == EXTENDED_KEY_USAGE.as_slice() {
        let said = purposes(value.body())?;
        Some(Some(said))
    } else {
        Some(None)
    }
}

/// The same by the parts of the extension.
fn said_by_parts(parts: Parts<'_>) -> Option<Option<bool>>
    ensures { result ≡ said_by_parts (left parts.entry) }
{
    let (name, value) = named_value(parts)?;
    said_purposes(name, value)
}

/// What an extension says of the purposes, where it has its form.
fn extension(element: Der<'_>) -> Result<Option<bool>, CertFault>
    ensures { result ≡ extension (part element.entry) }
{
    if !has_tag(0x30, element) {
        return Err(fault_at(CertCheck::Extension, element));
    }
    all_read(element.parts())?;
    match said_by_parts(element.parts()) {
        Some(said) => Ok(said),
        None => Err(fault_at(CertCheck::Extension, element)),
    }
}

/// The extended key usage stands once at most.
fn said_once(
    element: Der<'_>,
    before: Option<bool>,
    now: Option<bool>,
) -> Result<Option<bool>, CertFault>
    ensures { result ≡ said_once (part element.entry) before now }
{
    match (before, now) {
        (Some(_), Some(_)) => Err(fault_at(CertCheck::Extension, element)),
        (Some(said), None) => Ok(Some(said)),
        (None, said) => Ok(said),
    }
}

/// What an extension and those before it say.
fn with_extension(
    before: Result<Option<bool>, CertFault>,
    element: Der<'_>,
) -> Result<Option<bool>, CertFault>
    ensures { result ≡ with_extension before (part element.entry) }
{
    let (said, now) = both(before, extension(element))?;
    said_once(element, said, now)
}

/// What all extensions say of the purposes: nothing, where the extended key usage is not among them.
pub(crate) fn all_extensions(parts: Parts<'_>) -> Result<Option<bool>, CertFault>
    ensures { result ≡ with_extensions (Ok None) (left parts.entry) }
{
    let mut said = Ok(None);
    for part in parts {
        match part {
            Ok(element) => said = with_extension(said, element),
            Err(found) => {
                return Err(CertFault {
                    check: CertCheck::Der,
                    at: found.at,
                });
            }
        }
    }
    said
}
