//! The names of trusted roots.

ghost use Rattle.std.specs.Prelude.{◌≡◌};
ghost use Rattle.cert_view.specs.Cert.{fields};
ghost use Rattle.cert_view.specs.Certificate.{certificate};
ghost use Rattle.cert_view.specs.Root.{listed};
ghost use Rattle.root_trust.specs.Names.{has_named_root, is_named};

use cert_view::{Cert, Root};

/// Whether a root has the name of the certificate's issuer.
pub(crate) fn is_named(cert: &Cert<'_>, root: &Root) -> bool
    ensures { result ≡ is_named (fields cert.now) (certificate (listed root.now).bytes) }
{
    root.cert().subject() == cert.issuer()
}

/// Whether one of the roots has the name of the certificate's issuer.
pub fn has_named_root(cert: &Cert<'_>, roots: &[Root]) -> bool
    ensures { result ≡ has_named_root (fields cert.now) roots.now }
{
    for root in roots {
        if is_named(cert, root) {
            return true;
        }
    }
    false
}
