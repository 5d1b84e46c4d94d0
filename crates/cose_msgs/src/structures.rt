//! What is signed, and what is authenticated.

ghost use Rattle.std.specs.Prelude.{◌≡◌, IfOk};
ghost use Rattle.cose_msgs.specs.Structures.{structure, signed_structure, mac_structure};

use cbor_write::Build;
use mdoc_outside::{Memory, Octets};
use std::alloc::Global;

/// A structure with empty external data.
#[tactic(auto, using(crate::proofs::FourParts::four_parts), unfolding(crate::specs::Structures::structure))]
fn structure(
    alloc: Global,
    context: &str,
    protected: &[u8],
    payload: &[u8],
) -> Result<Octets, Memory>
    ensures { IfOk result (λ b. b ≡ structure context.now protected.now payload.now) }
{
    let mut out = Build::new(alloc);
    out.array(4)?;
    out.text(context)?;
    out.bytes(protected)?;
    out.bytes(&[])?;
    out.bytes(payload)?;
    Ok(out.finish())
}

/// What a COSE_Sign1 signs (Sig_structure; RFC 9052, section 4.4), with empty external data. A string of 2^32
/// bytes or more has no spelling here, and is answered by want of memory.
pub fn signed_bytes(alloc: Global, protected: &[u8], payload: &[u8]) -> Result<Octets, Memory>
    ensures { IfOk result (λ b. b ≡ signed_structure protected.now payload.now) }
{
    structure(alloc, "Signature1", protected, payload)
}

/// What a COSE_Mac0 authenticates (MAC_structure; RFC 9052, section 6.3), with empty external data.
pub fn mac_bytes(alloc: Global, protected: &[u8], payload: &[u8]) -> Result<Octets, Memory>
    ensures { IfOk result (λ b. b ≡ mac_structure protected.now payload.now) }
{
    structure(alloc, "MAC0", protected, payload)
}
