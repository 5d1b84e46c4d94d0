//! A verdict as lines of text: each check by its name, with its values after it.

use mdoc_outside::Octets;
use std::alloc::Global;
use std::str;
use verdict_model::{DocCheck, DocVerdict, ElementCheck, ElementVerdict, Named, Verdict};

/// A name alone.
fn name_of(alloc: Global, name: &str) -> Option<String> {
    let mut text = String::new(alloc);
    text.push_str(name).ok()?;
    Some(text)
}

/// A name with two digests or codes after it.
fn with_both(alloc: Global, name: &str, kept: &[u8; 32], made: &[u8; 32]) -> Option<String> {
    let kept = hex::encode(alloc, &kept[..]).ok()?;
    let made = hex::encode(alloc, &made[..]).ok()?;
    format!(in alloc; "{name} {kept} {made}").ok()
}

fn doc_check(alloc: Global, check: &DocCheck) -> Option<String> {
    match check {
        DocCheck::DocNotRequested => name_of(alloc, "DocNotRequested"),
        DocCheck::IssuerAuthForm => name_of(alloc, "IssuerAuthForm"),
        DocCheck::CertForm => name_of(alloc, "CertForm"),
        DocCheck::CertUntrusted => name_of(alloc, "CertUntrusted"),
        DocCheck::CertSignature => name_of(alloc, "CertSignature"),
        DocCheck::CertTime => name_of(alloc, "CertTime"),
        DocCheck::KeyUse => name_of(alloc, "KeyUse"),
        DocCheck::IssuerSignature => name_of(alloc, "IssuerSignature"),
        DocCheck::MsoForm => name_of(alloc, "MsoForm"),
        DocCheck::DocTypeDiffers => name_of(alloc, "DocTypeDiffers"),
        DocCheck::SignedTime { signed, from } => {
            format!(in alloc; "SignedTime {signed} {from}").ok()
        }
        DocCheck::NotYetValid { from, moment } => {
            format!(in alloc; "NotYetValid {from} {moment}").ok()
        }
        DocCheck::Expired { until, moment } => format!(in alloc; "Expired {until} {moment}").ok(),
        DocCheck::DeviceKeyForm => name_of(alloc, "DeviceKeyForm"),
        DocCheck::DeviceAuthForm => name_of(alloc, "DeviceAuthForm"),
        DocCheck::DeviceSignature => name_of(alloc, "DeviceSignature"),
        DocCheck::DeviceKeyRefused => name_of(alloc, "DeviceKeyRefused"),
        DocCheck::DeviceMac { kept, made } => with_both(alloc, "DeviceMac", kept, made),
    }
}

fn element_check(alloc: Global, check: &ElementCheck) -> Option<String> {
    match check {
        ElementCheck::ItemForm => name_of(alloc, "ItemForm"),
        ElementCheck::NoDigest => name_of(alloc, "NoDigest"),
        ElementCheck::DigestDiffers { kept, made } => {
            with_both(alloc, "DigestDiffers", kept, made)
        }
        ElementCheck::Repeated => name_of(alloc, "Repeated"),
        ElementCheck::NotRequested => name_of(alloc, "NotRequested"),
    }
}

fn text_of(text: &Octets) -> Option<&str> {
    str::from_utf8(text.as_slice()).ok()
}

fn put_named(alloc: Global, lines: &mut String, what: &str, named: &Named) -> Option<()> {
    let doc_type = text_of(&named.doc_type)?;
    let ns = text_of(&named.ns)?;
    let name = text_of(&named.name)?;
    let line = format!(in alloc; "{what} {doc_type} {ns} {name}\n").ok()?;
    lines.push_str(line.as_str()).ok()
}

/// What is found of an element.
fn found(alloc: Global, element: &ElementVerdict) -> Option<String> {
    match &element.refused {
        Some(check) => {
            let check = element_check(alloc, check)?;
            format!(in alloc; "refused {check}").ok()
        }
        None => {
            let value = hex::encode(alloc, element.value.as_slice()).ok()?;
            format!(in alloc; "accepted {value}").ok()
        }
    }
}

fn put_element(
    alloc: Global,
    lines: &mut String,
    doc_type: &str,
    element: &ElementVerdict,
) -> Option<()> {
    let ns = text_of(&element.ns)?;
    let name = text_of(&element.name)?;
    let found = found(alloc, element)?;
    let line = format!(in alloc; "element {doc_type} {ns} {name} {found}\n").ok()?;
    lines.push_str(line.as_str()).ok()
}

/// What is found of a document.
fn found_of(alloc: Global, document: &DocVerdict) -> Option<String> {
    match &document.refused {
        Some(check) => {
            let check = doc_check(alloc, check)?;
            format!(in alloc; "refused {check}").ok()
        }
        None => name_of(alloc, "accepted"),
    }
}

fn put_document(alloc: Global, lines: &mut String, document: &DocVerdict) -> Option<()> {
    let doc_type = text_of(&document.doc_type)?;
    let found = found_of(alloc, document)?;
    let line = format!(in alloc; "document {doc_type} {found}\n").ok()?;
    lines.push_str(line.as_str()).ok()?;
    for element in document.elements.as_slice() {
        put_element(alloc, lines, doc_type, element)?;
    }
    for named in document.device_elements.as_slice() {
        put_named(alloc, lines, "device-element", named)?;
    }
    Some(())
}

/// The lines of a verdict: each document with its elements, and what is unanswered.
pub(crate) fn printed(alloc: Global, verdict: &Verdict) -> Option<String> {
    let mut lines = String::new(alloc);
    for document in verdict.documents.as_slice() {
        put_document(alloc, &mut lines, document)?;
    }
    for named in verdict.unanswered.as_slice() {
        put_named(alloc, &mut lines, "unanswered", named)?;
    }
    Some(lines)
}
