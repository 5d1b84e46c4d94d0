//! The moments of certificates (RFC 5280, 4.1.2.5), in seconds since 1970.

ghost use Rattle.std.specs.Prelude.{◌≡◌, [], ◌∷◌, length, IfSome, IfNone};
ghost use Rattle.cert_view.specs.Times.{with_signs, generalized_time, utc_time};

use mdl_table::moment_of;

/// `YYYYMMDDHHMMSSZ` with the signs between, the first two digits apart: `YYYY-MM-DDTHH:MM:SSZ`.
fn with_signs(first: u8, second: u8, text: &[u8]) -> Option<[u8; 20]>
    ensures written { IfSome result (λ signed. signed ≡ with_signs (first ∷ second ∷ text.now)) }
    ensures other { IfNone result (length text.now ≡ 13 → ⊥) }
{
    match text {
        [y, z, m, n, d, e, h, i, q, r, s, t, end] => Some([
            first, second, *y, *z, b'-', *m, *n, b'-', *d, *e, b'T', *h, *i, b':', *q, *r, b':',
            *s, *t, *end,
        ]),
        _ => None,
    }
}

/// The moment of a text that begins with two digits apart.
fn time_of(first: u8, second: u8, text: &[u8]) -> Option<i64>
    ensures { result ≡ generalized_time (first ∷ second ∷ text.now) }
{
    let signed = with_signs(first, second, text)?;
    match str::from_utf8(&signed) {
        Ok(said) => moment_of(said),
        Err(_) => None,
    }
}

/// The moment that a GeneralizedTime `YYYYMMDDHHMMSSZ` says.
pub(crate) fn generalized_time(text: &[u8]) -> Option<i64>
    ensures { result ≡ generalized_time text.now }
{
    match text {
        [first, second, rest @ ..] => time_of(*first, *second, rest),
        _ => None,
    }
}

/// The moment that a UTCTime `YYMMDDHHMMSSZ` says, from 1950 to 2049.
#[tactic(auto, unfolding(crate::specs::Times::utc_time))]
pub(crate) fn utc_time(text: &[u8]) -> Option<i64>
    ensures { result ≡ utc_time text.now }
{
    match text {
        [] => time_of(b'2', b'0', text),
        [decade, ..] if *decade < b'5' => time_of(b'2', b'0', text),
        _ => time_of(b'1', b'9', text),
    }
}
