//! Elements and their parts, as a shape wants them.

ghost use Rattle.std.specs.Prelude.{◌≡◌, ◌==◌, [], ◌∷◌, Some, None, option_map};
ghost use Rattle.der_view.specs.Der.{part};
ghost use Rattle.der_view.specs.PartsLeft.{left};
ghost use Rattle.der_view.specs.Reading.{Gives};
ghost use Rattle.cert_view.specs.Faults.{fault};
ghost use Rattle.cert_view.specs.Shapes.{element_of, has_tag, tagged, all_read, parts_in, front, is_empty, one, two, three, of_shape};

use crate::cert_check::CertCheck;
use crate::cert_fault::CertFault;
use der_view::{Der, Parts};

/// The fault of a check at an element.
pub(crate) fn fault_at(check: CertCheck, element: Der<'_>) -> CertFault
    ensures { result ≡ fault check (part element.entry).at }
{
    CertFault {
        check,
        at: element.at(),
    }
}

/// The one element that all of the bytes spell.
pub(crate) fn element_of(bytes: &[u8]) -> Result<Der<'_>, CertFault>
    ensures { Gives part result (element_of bytes.now) }
{
    match Der::read(bytes) {
        Ok(element) => Ok(element),
        Err(found) => Err(CertFault {
            check: CertCheck::Der,
            at: found.at,
        }),
    }
}

pub(crate) fn has_tag(tag: u8, element: Der<'_>) -> bool
    ensures { result ≡ has_tag tag (part element.entry) }
{
    element.tag() == tag
}

/// The element, where it has that tag.
pub(crate) fn tagged(tag: u8, element: Der<'_>) -> Result<Der<'_>, CertFault>
    ensures { Gives part result (tagged tag (part element.entry)) }
{
    if has_tag(tag, element) {
        Ok(element)
    } else {
        Err(fault_at(CertCheck::Shape, element))
    }
}

/// Whether the parts all read.
pub(crate) fn all_read(parts: Parts<'_>) -> Result<(), CertFault>
    ensures { result ≡ all_read (left parts.entry) }
{
    for part in parts {
        if let Err(found) = part {
            return Err(CertFault {
                check: CertCheck::Der,
                at: found.at,
            });
        }
    }
    Ok(())
}

/// The parts of an element of that tag, which all read.
pub(crate) fn parts_in(tag: u8, element: Der<'_>) -> Result<Parts<'_>, CertFault>
    ensures { Gives left result (parts_in tag (part element.entry)) }
{
    let element = tagged(tag, element)?;
    all_read(element.parts())?;
    Ok(element.parts())
}

/// The first part, and those after it.
pub(crate) fn front<'a>(parts: Parts<'a>) -> Option<(Der<'a>, Parts<'a>)>
    ensures { option_map (λ x. (part x.0, left x.1)) result ≡ front (left parts.entry) }
{
    let mut rest = parts;
    match rest.next() {
        Some(Ok(first)) => Some((first, rest)),
        Some(Err(_)) => None,
        None => None,
    }
}

/// Whether no part is left.
pub(crate) fn is_empty(parts: Parts<'_>) -> bool
    ensures { result ≡ is_empty (left parts.entry) }
{
    let mut rest = parts;
    rest.next().is_none()
}

/// The only part.
pub(crate) fn one(parts: Parts<'_>) -> Option<Der<'_>>
    ensures { option_map part result ≡ one (left parts.entry) }
{
    let (only, rest) = front(parts)?;
    if is_empty(rest) { Some(only) } else { None }
}

/// The parts, where they are two.
pub(crate) fn two<'a>(parts: Parts<'a>) -> Option<(Der<'a>, Der<'a>)>
    ensures { option_map (λ x. (part x.0, part x.1)) result ≡ two (left parts.entry) }
{
    let (first, rest) = front(parts)?;
    let (second, rest) = front(rest)?;
    if is_empty(rest) {
        Some((first, second))
    } else {
        None
    }
}

/// The parts, where they are three.
fn three<'a>(parts: Parts<'a>) -> Option<(Der<'a>, Der<'a>, Der<'a>)>
    ensures { option_map (λ x. (part x.0, part x.1, part x.2)) result ≡ three (left parts.entry) }
{
    let (first, rest) = front(parts)?;
    let (second, rest) = front(rest)?;
    let (third, rest) = front(rest)?;
    if is_empty(rest) {
        Some((first, second, third))
    } else {
        None
    }
}

/// The only part of an element of that tag.
pub(crate) fn one_in(tag: u8, element: Der<'_>) -> Result<Der<'_>, CertFault>
    ensures { Gives part result (of_shape one tag (part element.entry)) }
{
    match one(parts_in(tag, element)?) {
        Some(found) => Ok(found),
        None => Err(fault_at(CertCheck::Shape, element)),
    }
}

/// The two parts of an element of that tag.
pub(crate) fn two_in<'a>(tag: u8, element: Der<'a>) -> Result<(Der<'a>, Der<'a>), CertFault>
    ensures { Gives (λ x. (part x.0, part x.1)) result (of_shape two tag (part element.entry)) }
{
    match two(parts_in(tag, element)?) {
        Some(found) => Ok(found),
        None => Err(fault_at(CertCheck::Shape, element)),
    }
}

/// The three parts of an element of that tag.
pub(crate) fn three_in<'a>(
    tag: u8,
    element: Der<'a>,
) -> Result<(Der<'a>, Der<'a>, Der<'a>), CertFault>
    ensures { Gives (λ x. (part x.0, part x.1, part x.2)) result (of_shape three tag (part element.entry)) }
{
    match three(parts_in(tag, element)?) {
        Some(found) => Ok(found),
        None => Err(fault_at(CertCheck::Shape, element)),
    }
}
