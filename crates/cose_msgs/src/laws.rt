//! What holds of the definitions alone. Each is the contract of a function that does nothing.

ghost use Rattle.std.specs.Prelude.{◌≡◌, ◌<◌, ◌^◌, ℕ, List, length};
ghost use Rattle.cose_msgs.specs.Structures.{mac_structure, signed_structure};
ghost use Rattle.cose_msgs.specs.TranscriptLaws.{DevicePayloadHasParts, PayloadsDiffer, ReaderPayloadHasParts, TranscriptHasParts, TranscriptIsItem};

/// What is signed determines the protected bytes and the payload.
pub fn signature_determines_parts()
    ensures { (protected payload others other : List ℕ) → length protected < 2 ^ 32 → length payload < 2 ^ 32 → length others < 2 ^ 32 → length other < 2 ^ 32 → signed_structure protected payload ≡ signed_structure others other → (protected ≡ others) × (payload ≡ other) }
{}

/// So does what is authenticated.
pub fn mac_determines_parts()
    ensures { (protected payload others other : List ℕ) → length protected < 2 ^ 32 → length payload < 2 ^ 32 → length others < 2 ^ 32 → length other < 2 ^ 32 → mac_structure protected payload ≡ mac_structure others other → (protected ≡ others) × (payload ≡ other) }
{}

/// What is signed is never what is authenticated, whatever their parts.
pub fn context_is_told_apart()
    ensures { (protected payload others other : List ℕ) → signed_structure protected payload ≡ mac_structure others other → ⊥ }
{}

/// A transcript determines the engagement, the reader's key and the handover: no bytes can be moved from one
/// of them into another.
pub fn transcript_determines_parts()
    ensures { TranscriptHasParts }
{}

/// A transcript is one item where its handover is one, however deep.
pub fn transcript_is_one_item()
    ensures { TranscriptIsItem }
{}

/// What a device authenticates determines the transcript, the document type and the namespaces.
pub fn device_payload_determines_parts()
    ensures { DevicePayloadHasParts }
{}

/// What a reader signs determines the transcript and the items.
pub fn reader_payload_determines_parts()
    ensures { ReaderPayloadHasParts }
{}

/// What a device authenticates is never what a reader signs, whatever their parts.
pub fn payloads_are_told_apart()
    ensures { PayloadsDiffer }
{}
