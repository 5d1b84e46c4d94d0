//! The to-be-signed part of a certificate (RFC 5280, 4.1.2).

ghost use Rattle.std.specs.Prelude.{◌≡◌, option_map};
ghost use Rattle.der_view.specs.Der.{part};
ghost use Rattle.der_view.specs.PartsLeft.{left};
ghost use Rattle.der_view.specs.Reading.{Gives};
ghost use Rattle.cert_view.specs.Shapes.{of_shape};
ghost use Rattle.cert_view.specs.Tbs.{version, one_or_two, algorithm, time, validity, key_algorithm, point_under, public_key, extensions, numbering, heading, names, values, contents, to_be_signed};
ghost use Rattle.cert_view.specs.TbsParts.{layout_of};
ghost use Rattle.cert_view.specs.Cert.{tbs_fields};

use crate::cert_check::CertCheck;
use crate::cert_fault::CertFault;
use crate::extensions::all_extensions;
use crate::first_fault::both;
use crate::keys::point_of;
use crate::shapes::{fault_at, front, has_tag, is_empty, one_in, parts_in, tagged, two_in};
use crate::tbs_parts::{TbsParts, tbs_parts};
use crate::times::{generalized_time, utc_time};
use der_view::{Der, Parts};
use key_device::Point;

/// ECDSA with SHA-256, 1.2.840.10045.4.3.2 (RFC 5758, 3.2).
const ECDSA_WITH_SHA256: [u8; 8] = [0x2a, 0x86, 0x48, 0xce, 0x3d, 0x04, 0x03, 0x02];

/// A public key on an elliptic curve, 1.2.840.10045.2.1 (RFC 5480, 2.1.1).
const EC_PUBLIC_KEY: [u8; 7] = [0x2a, 0x86, 0x48, 0xce, 0x3d, 0x02, 0x01];

/// The element of the curve P-256, 1.2.840.10045.3.1.7 (RFC 5480, 2.1.1.1).
const SECP256R1: [u8; 10] = [0x06, 0x08, 0x2a, 0x86, 0x48, 0xce, 0x3d, 0x03, 0x01, 0x07];

/// What is read of the to-be-signed part.
#[derive(Clone, Copy)]
pub(crate) struct TbsFields<'a> {
    pub(crate) issuer: &'a [u8],
    pub(crate) subject: &'a [u8],
    pub(crate) not_before: i64,
    pub(crate) not_after: i64,
    pub(crate) key: Point,
    pub(crate) signs_documents: bool,
}

/// The version: `[0]` with the INTEGER 2.
fn version(element: Der<'_>) -> Result<(), CertFault>
    ensures { result ≡ version (part element.entry) }
{
    let number = tagged(0x02, one_in(0xa0, element)?)?;
    if number.body() == [2].as_slice() {
        Ok(())
    } else {
        Err(fault_at(CertCheck::VersionNot3, number))
    }
}

/// The first of one or two parts.
fn one_or_two(parts: Parts<'_>) -> Option<Der<'_>>
    ensures { option_map part result ≡ one_or_two (left parts.entry) }
{
    let (first, rest) = front(parts)?;
    if is_empty(rest) {
        return Some(first);
    }
    let (_, rest) = front(rest)?;
    if is_empty(rest) { Some(first) } else { None }
}

/// The first of the one or two parts of an element of that tag.
fn one_or_two_in(tag: u8, element: Der<'_>) -> Result<Der<'_>, CertFault>
    ensures { Gives part result (of_shape one_or_two tag (part element.entry)) }
{
    match one_or_two(parts_in(tag, element)?) {
        Some(found) => Ok(found),
        None => Err(fault_at(CertCheck::Shape, element)),
    }
}

/// An algorithm: ECDSA with SHA-256, whatever its parameters.
pub(crate) fn algorithm(element: Der<'_>) -> Result<(), CertFault>
    ensures { result ≡ algorithm (part element.entry) }
{
    let name = tagged(0x06, one_or_two_in(0x30, element)?)?;
    if name.body() == ECDSA_WITH_SHA256.as_slice() {
        Ok(())
    } else {
        Err(fault_at(CertCheck::Algorithm, element))
    }
}

/// A UTCTime or a GeneralizedTime.
fn time(element: Der<'_>) -> Result<i64, CertFault>
    ensures { result ≡ time (part element.entry) }
{
    let moment = if has_tag(0x17, element) {
        utc_time(element.body())
    } else if has_tag(0x18, element) {
        generalized_time(element.body())
    } else {
        return Err(fault_at(CertCheck::Shape, element));
    };
    match moment {
        Some(moment) => Ok(moment),
        None => Err(fault_at(CertCheck::Time, element)),
    }
}

fn validity(element: Der<'_>) -> Result<(i64, i64), CertFault>
    ensures { result ≡ validity (part element.entry) }
{
    let (first, last) = two_in(0x30, element)?;
    both(time(first), time(last))
}

/// The identifier and the parameters of a key's algorithm.
fn key_algorithm<'a>(element: Der<'a>) -> Result<(Der<'a>, Der<'a>), CertFault>
    ensures { Gives (λ x. (part x.0, part x.1)) result (key_algorithm (part element.entry)) }
{
    let (name, parameters) = two_in(0x30, element)?;
    Ok((tagged(0x06, name)?, parameters))
}

/// The point of a key on the curve P-256.
fn point_under(name: Der<'_>, parameters: Der<'_>, bits: Der<'_>) -> Option<Point>
    ensures { result ≡ point_under (part name.entry, part parameters.entry) (part bits.entry) }
{
    if name.body() == EC_PUBLIC_KEY.as_slice() && parameters.raw() == SECP256R1.as_slice() {
        point_of(bits.body())
    } else {
        None
    }
}

fn public_key(element: Der<'_>) -> Result<Point, CertFault>
    ensures { result ≡ public_key (part element.entry) }
{
    let (first, second) = two_in(0x30, element)?;
    let ((name, parameters), bits) = both(key_algorithm(first), tagged(0x03, second))?;
    match point_under(name, parameters, bits) {
        Some(point) => Ok(point),
        None => Err(fault_at(CertCheck::KeyKind, element)),
    }
}

/// What the extensions say of the purposes: nothing where there are none, else `[3]` with them.
fn extensions(last: Option<Der<'_>>) -> Result<Option<bool>, CertFault>
    ensures { result ≡ extensions (option_map part last.entry) }
{
    match last {
        Some(last) => all_extensions(parts_in(0x30, one_in(0xa3, last)?)?),
        None => Ok(None),
    }
}

/// The version and the serial number.
fn numbering(parts: TbsParts<'_>) -> Result<(), CertFault>
    ensures { result ≡ numbering (layout_of parts.entry) }
{
    match both(version(parts.version), tagged(0x02, parts.serial)) {
        Ok(_) => Ok(()),
        Err(fault) => Err(fault),
    }
}

/// The version, the serial number and the algorithm.
fn heading(parts: TbsParts<'_>) -> Result<((), ()), CertFault>
    ensures { result ≡ heading (layout_of parts.entry) }
{
    both(numbering(parts), algorithm(parts.algorithm))
}

/// The issuer and the subject.
fn names<'a>(parts: TbsParts<'a>) -> Result<(Der<'a>, Der<'a>), CertFault>
    ensures { Gives (λ x. (part x.0, part x.1)) result (names (layout_of parts.entry)) }
{
    both(tagged(0x30, parts.issuer), tagged(0x30, parts.subject))
}

/// The validity, the key and what the extensions say of its purposes.
fn values(parts: TbsParts<'_>) -> Result<((i64, i64), (Point, Option<bool>)), CertFault>
    ensures { result ≡ values (layout_of parts.entry) }
{
    let purposes = extensions(parts.extensions);
    both(
        validity(parts.validity),
        both(public_key(parts.key), purposes),
    )
}

/// What is read of the parts.
fn contents<'a>(parts: TbsParts<'a>) -> Result<TbsFields<'a>, CertFault>
    ensures { Gives tbs_fields result (contents (layout_of parts.entry)) }
{
    let others = both(heading(parts), values(parts));
    match both(names(parts), others) {
        Ok(((issuer, subject), (_, (times, (key, purposes))))) => Ok(TbsFields {
            issuer: issuer.raw(),
            subject: subject.raw(),
            not_before: times.0,
            not_after: times.1,
            key,
            signs_documents: purposes.unwrap_or(false),
        }),
        Err(fault) => Err(fault),
    }
}

/// What is read of the to-be-signed part.
pub(crate) fn to_be_signed<'a>(element: Der<'a>) -> Result<TbsFields<'a>, CertFault>
    ensures { Gives tbs_fields result (to_be_signed (part element.entry)) }
{
    match tbs_parts(parts_in(0x30, element)?) {
        Some(parts) => contents(parts),
        None => Err(fault_at(CertCheck::Shape, element)),
    }
}
