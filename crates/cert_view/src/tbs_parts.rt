//! The parts of the to-be-signed part of a certificate (RFC 5280, 4.1.2).

ghost use Rattle.std.specs.Prelude.{◌≡◌, option_map};
ghost use Rattle.der_view.specs.Der.{part};
ghost use Rattle.der_view.specs.PartsLeft.{left};
ghost use Rattle.cert_view.specs.Tbs.{after_unique_identifiers, none_or_one, layout};
ghost use Rattle.cert_view.specs.TbsParts.{layout_of};

use crate::extensions::after_optional;
use crate::shapes::{front, is_empty, one};
use der_view::{Der, Parts};

/// The seven parts that each certificate has, and the extensions, where they are there.
#[derive(Clone, Copy)]
pub(crate) struct TbsParts<'a> {
    pub(crate) version: Der<'a>,
    pub(crate) serial: Der<'a>,
    pub(crate) algorithm: Der<'a>,
    pub(crate) issuer: Der<'a>,
    pub(crate) validity: Der<'a>,
    pub(crate) subject: Der<'a>,
    pub(crate) key: Der<'a>,
    pub(crate) extensions: Option<Der<'a>>,
}

/// The parts after the unique identifiers `[1]` and `[2]`, which are ignored.
fn after_unique_identifiers(parts: Parts<'_>) -> Parts<'_>
    ensures { left result ≡ after_unique_identifiers (left parts.entry) }
{
    after_optional(0x82, after_optional(0x81, parts))
}

/// The only part or none, where there are no more.
fn none_or_one(parts: Parts<'_>) -> Option<Option<Der<'_>>>
    ensures { option_map (option_map part) result ≡ none_or_one (left parts.entry) }
{
    if is_empty(parts) {
        return Some(None);
    }
    let only = one(parts)?;
    Some(Some(only))
}

/// The parts one by one, where they are neither too few nor too many.
pub(crate) fn tbs_parts<'a>(parts: Parts<'a>) -> Option<TbsParts<'a>>
    ensures { option_map layout_of result ≡ layout (left parts.entry) }
{
    let (version, rest) = front(parts)?;
    let (serial, rest) = front(rest)?;
    let (algorithm, rest) = front(rest)?;
    let (issuer, rest) = front(rest)?;
    let (validity, rest) = front(rest)?;
    let (subject, rest) = front(rest)?;
    let (key, rest) = front(rest)?;
    let extensions = none_or_one(after_unique_identifiers(rest))?;
    Some(TbsParts {
        version,
        serial,
        algorithm,
        issuer,
        validity,
        subject,
        key,
        extensions,
    })
}
