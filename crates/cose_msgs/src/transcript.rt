//! The transcript of a session, and the payloads that stand on it.

ghost use Rattle.std.specs.Prelude.{◌≡◌, ◌++◌, IfOk, OnOk};
ghost use Rattle.cose_msgs.specs.Transcript.{device_payload, reader_payload, transcript, transcript_bytes};
ghost use Rattle.cbor_maps.specs.Writing.{encoded_bytes};

use cbor_view::ENCODED;
use cbor_write::Build;
use mdoc_outside::{Memory, Octets};
use std::alloc::Global;

/// Appends encoded CBOR: a string of bytes under tag 24.
fn append_encoded(out: &mut Build, inner: &[u8]) -> Result<(), Memory>
    ensures { OnOk result (out.new ≡ out.old ++ encoded_bytes inner.now) }
{
    out.tag(ENCODED)?;
    out.bytes(inner)
}

/// Encoded CBOR alone.
fn encoded(alloc: Global, inner: &[u8]) -> Result<Octets, Memory>
    ensures { IfOk result (λ b. b ≡ encoded_bytes inner.now) }
{
    let mut out = Build::new(alloc);
    append_encoded(&mut out, inner)?;
    Ok(out.finish())
}

/// The transcript of a session (SessionTranscript; ISO/IEC 18013-5, 9.1.5.1): the bytes of the device
/// engagement and of the reader's key, each as encoded CBOR, and the handover, as the bytes that it has. A
/// string of 2^32 bytes or more has no spelling here, and is answered by want of memory.
#[tactic(auto, using(crate::proofs::ThreeParts::three_parts), unfolding(crate::specs::Transcript::transcript))]
pub fn write_transcript(
    alloc: Global,
    engagement: &[u8],
    reader_key: &[u8],
    handover: &[u8],
) -> Result<Octets, Memory>
    ensures { IfOk result (λ b. b ≡ transcript engagement.now reader_key.now handover.now) }
{
    let mut out = Build::new(alloc);
    out.array(3)?;
    append_encoded(&mut out, engagement)?;
    append_encoded(&mut out, reader_key)?;
    out.append(handover)?;
    Ok(out.finish())
}

/// The bytes of a transcript as encoded CBOR (SessionTranscriptBytes; 9.1.5.1).
#[tactic(auto, unfolding(crate::specs::Transcript::transcript_bytes))]
pub fn write_transcript_bytes(alloc: Global, transcript: &[u8]) -> Result<Octets, Memory>
    ensures { IfOk result (λ b. b ≡ transcript_bytes transcript.now) }
{
    encoded(alloc, transcript)
}

/// What a device signs or authenticates (DeviceAuthenticationBytes; 9.1.3): the bytes of the transcript, the
/// document type, and the bytes of the map of the device's namespaces.
#[tactic(auto, using(crate::proofs::FourParts::four_parts), unfolding(crate::specs::Transcript::device_payload, crate::specs::Transcript::device_authentication))]
pub fn device_auth_bytes(
    alloc: Global,
    transcript: &[u8],
    doc_type: &str,
    namespaces: &[u8],
) -> Result<Octets, Memory>
    ensures { IfOk result (λ b. b ≡ device_payload transcript.now doc_type.now namespaces.now) }
{
    let mut out = Build::new(alloc);
    out.array(4)?;
    out.text("DeviceAuthentication")?;
    out.append(transcript)?;
    out.text(doc_type)?;
    append_encoded(&mut out, namespaces)?;
    encoded(alloc, out.finish().as_slice())
}

/// What a reader signs (ReaderAuthenticationBytes; 9.1.4): the bytes of the transcript, and ItemsRequestBytes,
/// tag and heads as they were received.
#[tactic(auto, using(crate::proofs::ThreeParts::three_parts), unfolding(crate::specs::Transcript::reader_payload, crate::specs::Transcript::reader_authentication))]
pub fn reader_auth_bytes(alloc: Global, transcript: &[u8], items: &[u8]) -> Result<Octets, Memory>
    ensures { IfOk result (λ b. b ≡ reader_payload transcript.now items.now) }
{
    let mut out = Build::new(alloc);
    out.array(3)?;
    out.text("ReaderAuthentication")?;
    out.append(transcript)?;
    out.append(items)?;
    encoded(alloc, out.finish().as_slice())
}
