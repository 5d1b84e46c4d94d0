//! Which of two faults is reported.

ghost use Rattle.std.specs.Prelude.{◌≡◌};
ghost use Rattle.cert_view.specs.Faults.{rank, is_before, first_of, both};

use crate::cert_check::CertCheck;
use crate::cert_fault::CertFault;

/// The place of a check in their order.
fn rank(check: CertCheck) -> u8
    ensures { result ≡ rank check }
{
    match check {
        CertCheck::Der => 0,
        CertCheck::Shape => 1,
        CertCheck::VersionNot3 => 2,
        CertCheck::Algorithm => 3,
        CertCheck::Time => 4,
        CertCheck::KeyKind => 5,
        CertCheck::Signature => 6,
        CertCheck::Extension => 7,
    }
}

/// Whether a fault comes before another: by its check, and at one check by its place.
fn is_before(one: CertFault, other: CertFault) -> bool
    ensures { result ≡ is_before one other }
{
    let (first, second) = (rank(one.check), rank(other.check));
    first < second || first == second && one.at < other.at
}

fn first_of(one: CertFault, other: CertFault) -> CertFault
    ensures { result ≡ first_of one other }
{
    if is_before(other, one) { other } else { one }
}

/// Both values, or the first of the faults.
pub(crate) fn both<A: Copy, B: Copy>(
    one: Result<A, CertFault>,
    other: Result<B, CertFault>,
) -> Result<(A, B), CertFault>
    ensures { result ≡ both one other }
{
    match (one, other) {
        (Ok(a), Ok(b)) => Ok((a, b)),
        (Ok(_), Err(fault)) => Err(fault),
        (Err(fault), Ok(_)) => Err(fault),
        (Err(first), Err(second)) => Err(first_of(first, second)),
    }
}
