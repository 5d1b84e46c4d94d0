//! What the certificates of a new signer are to say.

ghost use Rattle.std.specs.Prelude.{◌≡◌, IfOk};
ghost use Rattle.cert_view.specs.Written.{IsTime, IsWritable};
ghost use Rattle.issuing.specs.Signers.{root_draft, signer_draft};

use cert_view::CertDraft;
use key_device::Made;
use mdoc_outside::{Memory, Octets};
use std::alloc::Global;

/// What the certificate of a root is to say.
pub(crate) fn root_draft(
    alloc: Global,
    validity: (i64, i64),
    root: &Made,
) -> Result<CertDraft, Memory>
    requires from { IsTime validity.0 }
    requires until { IsTime validity.1 }
    ensures draft { IfOk result (λ d. d ≡ root_draft validity.0 validity.1 root.now) }
    ensures writable { IfOk result (λ d. IsWritable d) }
{
    let issuer = Octets::copy_of(alloc, b"issuer")?;
    let subject = Octets::copy_of(alloc, b"issuer")?;
    Ok(CertDraft {
        serial: 1,
        issuer,
        subject,
        from: validity.0,
        until: validity.1,
        key: root.public,
        signer: false,
        issuer_key: root.key,
    })
}

/// What the certificate of a signer is to say, which a root issues.
pub(crate) fn signer_draft(
    alloc: Global,
    validity: (i64, i64),
    root: &Made,
    signer: &Made,
) -> Result<CertDraft, Memory>
    requires from { IsTime validity.0 }
    requires until { IsTime validity.1 }
    ensures draft { IfOk result (λ d. d ≡ signer_draft validity.0 validity.1 root.now signer.now) }
    ensures writable { IfOk result (λ d. IsWritable d) }
{
    let issuer = Octets::copy_of(alloc, b"issuer")?;
    let subject = Octets::copy_of(alloc, b"signer")?;
    Ok(CertDraft {
        serial: 2,
        issuer,
        subject,
        from: validity.0,
        until: validity.1,
        key: signer.public,
        signer: true,
        issuer_key: root.key,
    })
}
