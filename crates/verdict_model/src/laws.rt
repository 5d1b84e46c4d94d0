// Laws of the verdict.
ghost use Rattle.verdict_model.specs.Laws.{AreAcceptedRequested, AreAcceptedSigned};
ghost use Rattle.verdict_model.specs.Soundness.{AreAcceptedSound};

/// A document is accepted only where the reader's own talk holds yes for the signature of its security object under
/// the certificate's key, yes for the certificate under a trusted root of its issuer's name, and yes for the device's
/// signature over this session's payload under the object's device key, or a secret by which the device's code is that
/// of the payload.
pub fn accepted_is_sound()
    ensures { AreAcceptedSound }
{}

/// An element that is accepted is one of the items that the security object was made of, at its namespace, unless
/// two items that differ have the same digest.
pub fn accepted_is_signed()
    ensures { AreAcceptedSigned }
{}

/// An element that is accepted was asked for, and none of its namespace and name was accepted before it.
pub fn accepted_is_requested()
    ensures { AreAcceptedRequested }
{}
