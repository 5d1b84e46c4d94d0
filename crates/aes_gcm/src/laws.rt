//! Laws of the definitions that the crate's contracts cite.

ghost use Rattle.aes_gcm.specs.Sealing.{SealedOpens};

/// Opening a ciphertext with its tag gives the text that was sealed (NIST SP 800-38D, section 7).
pub fn opening_gives_the_sealed_text()
    ensures { SealedOpens }
{}
