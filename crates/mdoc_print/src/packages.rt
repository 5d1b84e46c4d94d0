//! What is printed of a package.

ghost use Rattle.std.specs.Prelude.{◌≡◌, ◌++◌, IfOk, OnOk, codes};
ghost use Rattle.std.specs.Fmt.{decimal};
ghost use Rattle.mdoc_print.specs.PackageLines.{package_lines, doc_check_text, element_check_text, finding, refusal_lines, verdict_line};

use crate::names::put_name;
use crate::numbers::put_number;
use mdoc_outside::{Memory, Octets, Rows};
use package_import::is_accepted;
use std::alloc::Global;
use verdict_model::{DocCheck, ElementCheck, PackageVerdict};

/// The name of a check of a document.
fn doc_check_text(check: &DocCheck) -> &'static str
    ensures { result.now ≡ doc_check_text check.now }
{
    match check {
        DocCheck::DocNotRequested => "DocNotRequested",
        DocCheck::IssuerAuthForm => "IssuerAuthForm",
        DocCheck::CertForm => "CertForm",
        DocCheck::CertUntrusted => "CertUntrusted",
        DocCheck::CertSignature => "CertSignature",
        DocCheck::CertTime => "CertTime",
        DocCheck::KeyUse => "KeyUse",
        DocCheck::IssuerSignature => "IssuerSignature",
        DocCheck::MsoForm => "MsoForm",
        DocCheck::DocTypeDiffers => "DocTypeDiffers",
        DocCheck::SignedTime { .. } => "SignedTime",
        DocCheck::NotYetValid { .. } => "NotYetValid",
        DocCheck::Expired { .. } => "Expired",
        DocCheck::DeviceKeyForm => "DeviceKeyForm",
        DocCheck::DeviceAuthForm => "DeviceAuthForm",
        DocCheck::DeviceSignature => "DeviceSignature",
        DocCheck::DeviceKeyRefused => "DeviceKeyRefused",
        DocCheck::DeviceMac { .. } => "DeviceMac",
    }
}

/// The name of a check of an item.
fn element_check_text(check: &ElementCheck) -> &'static str
    ensures { result.now ≡ element_check_text check.now }
{
    match check {
        ElementCheck::ItemForm => "ItemForm",
        ElementCheck::NoDigest => "NoDigest",
        ElementCheck::DigestDiffers { .. } => "DigestDiffers",
        ElementCheck::Repeated => "Repeated",
        ElementCheck::NotRequested => "NotRequested",
    }
}

/// Appends that a check fails.
fn put_refusal(line: &mut Vec<u8>, check: &str) -> Result<(), Memory>
    ensures { OnOk result (line.new.items ≡ line.old.items ++ (codes " refused " ++ check.now)) }
{
    line.extend_from_slice(b" refused ")?;
    line.extend_from_slice(check.as_bytes())?;
    Ok(())
}

/// Appends that a document is accepted, with its count of copies.
fn put_accepted(line: &mut Vec<u8>, alloc: Global, copies: u64) -> Result<(), Memory>
    ensures { OnOk result (line.new.items ≡ line.old.items ++ (codes " accepted copies " ++ decimal copies)) }
{
    line.extend_from_slice(b" accepted copies ")?;
    put_number(line, alloc, copies)
}

/// Appends what is found of a document.
fn put_finding(line: &mut Vec<u8>, alloc: Global, verdict: &PackageVerdict) -> Result<(), Memory>
    ensures { OnOk result (line.new.items ≡ line.old.items ++ finding verdict.now.copies verdict.now.refused verdict.now.item) }
{
    match &verdict.refused {
        Some(check) => put_refusal(line, doc_check_text(check)),
        None => match &verdict.item {
            Some((_, check)) => put_refusal(line, element_check_text(check)),
            None => put_accepted(line, alloc, verdict.copies),
        },
    }
}

/// The line of a document.
fn verdict_line(alloc: Global, verdict: &PackageVerdict) -> Result<Octets, Memory>
    ensures { IfOk result (λ line. line ≡ verdict_line verdict.now) }
{
    let mut line = b"document ".to_vec(alloc)?;
    put_name(&mut line, alloc, verdict.doc_type.as_slice())?;
    put_finding(&mut line, alloc, verdict)?;
    line.push(b'\n')?;
    Ok(Octets::from_vec(line))
}

/// The line of each document, in order.
pub fn package_lines(alloc: Global, verdicts: &[PackageVerdict]) -> Result<Rows<Octets>, Memory>
    ensures { IfOk result (λ lines. lines ≡ package_lines verdicts.now) }
{
    let mut lines = Vec::new(alloc);
    for verdict in verdicts {
        let line = verdict_line(alloc, verdict)?;
        lines.push(line)?;
    }
    Ok(Rows::from_vec(lines))
}

/// The line of each document that is refused, in order.
pub fn refusal_lines(alloc: Global, verdicts: &[PackageVerdict]) -> Result<Rows<Octets>, Memory>
    ensures { IfOk result (λ lines. lines ≡ refusal_lines verdicts.now) }
{
    let mut lines = Vec::new(alloc);
    for verdict in verdicts {
        if !is_accepted(verdict) {
            let line = verdict_line(alloc, verdict)?;
            lines.push(line)?;
        }
    }
    Ok(Rows::from_vec(lines))
}
