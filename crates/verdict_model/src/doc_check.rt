//! Why a document is refused.

/// The first check of a document that fails, in their order, with the values that differ (ISO/IEC 18013-5, 9.1.2,
/// 9.1.3 and 9.3.1).
#[derive(Clone, Copy)]
pub enum DocCheck {
    /// No document of its type was asked for.
    DocNotRequested,
    /// The issuer's signature is no COSE_Sign1 with a payload.
    IssuerAuthForm,
    /// It has no certificate, or the certificate doesn't read.
    CertForm,
    /// No trusted root has the name of the certificate's issuer.
    CertUntrusted,
    /// None of the roots of that name signed the certificate.
    CertSignature,
    /// The moment is outside the validity of the certificate or of that root.
    CertTime,
    /// The certificate is none of a document signer.
    KeyUse,
    /// The issuer didn't sign the security object.
    IssuerSignature,
    /// The payload is no security object.
    MsoForm,
    /// The object is of another document type.
    DocTypeDiffers,
    /// The object was signed outside the validity of the certificate, which begins at `from`.
    SignedTime {
        /// When the object was signed, in seconds since 1970.
        signed: i64,
        /// From when the certificate is valid, in seconds since 1970.
        from: i64,
    },
    /// The document isn't valid yet.
    NotYetValid {
        /// From when it is valid, in seconds since 1970.
        from: i64,
        /// The moment of the judgement.
        moment: i64,
    },
    /// The document isn't valid any more.
    Expired {
        /// Until when it was valid, in seconds since 1970.
        until: i64,
        /// The moment of the judgement.
        moment: i64,
    },
    /// The device key of the object is no key of the curve P-256.
    DeviceKeyForm,
    /// The device's authentication isn't exactly one signature or code with a detached payload.
    DeviceAuthForm,
    /// The device didn't sign in this session.
    DeviceSignature,
    /// The reader's key device refuses the device key.
    DeviceKeyRefused,
    /// The device's code isn't that of this session.
    DeviceMac {
        /// The code that was received.
        kept: [u8; 32],
        /// The code that the session calls for.
        made: [u8; 32],
    },
}
