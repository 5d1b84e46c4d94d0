//! The validities of a certificate and of its root.

ghost use Rattle.std.specs.Prelude.{◌≡◌};
ghost use Rattle.cert_view.specs.Cert.{fields};
ghost use Rattle.root_trust.specs.Validity.{are_valid, is_valid};

use cert_view::{Cert, Root};

/// Whether a moment lies in the validity of a certificate, both ends of which belong to it.
pub fn is_valid(moment: i64, cert: &Cert<'_>) -> bool
    ensures { result ≡ is_valid moment (fields cert.now) }
{
    cert.not_before() <= moment && moment <= cert.not_after()
}

/// Whether a moment lies in the validity of a certificate and of a root.
pub fn are_valid(moment: i64, cert: &Cert<'_>, root: &Root) -> bool
    ensures { result ≡ are_valid moment (fields cert.now) root.now }
{
    is_valid(moment, cert) && is_valid(moment, &root.cert())
}
