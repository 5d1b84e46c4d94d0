//! Writing of keys and messages.

ghost use Rattle.std.specs.Prelude.{◌≡◌, ◌++◌, OnErr, IfOk, OnOk, IfSome, ◌<◌, ◌^◌, length, option_map, None, Ok};
ghost use Rattle.mdoc_outside.specs.Borrowed.{content};
ghost use Rattle.cose_msgs.specs.Key.{key_of};
ghost use Rattle.cose_msgs.specs.Message.{mac0, sign1};
ghost use Rattle.cose_msgs.specs.Written.{IsReadAs, chain_map, es256, hmac256, key_bytes, mac0_bytes, payload_bytes, sign1_bytes};

use cbor_maps::MapBuild;
use cbor_write::Build;
use key_device::Point;
use mdoc_outside::{Memory, Octets};
use std::alloc::Global;

/// The protected map {1: -7}, ES256 (RFC 9053, section 2.1).
pub const PROTECTED_ES256: [u8; 3] = [0xa1, 0x01, 0x26];

/// The protected map {1: 5}, HMAC 256/256 (RFC 9053, section 3.1).
pub const PROTECTED_HMAC_256: [u8; 3] = [0xa1, 0x01, 0x05];

/// The label of a chain of certificates (RFC 9360, section 2).
const CHAIN: i64 = 33;

/// A key (COSE_Key; RFC 9052, section 7): {1: 2, -1: 1, -2: x, -3: y}.
#[tactic(auto, unfolding(crate::specs::Written::key_bytes))]
pub fn write_key(alloc: Global, point: &Point) -> Result<Octets, Memory>
    ensures written { IfOk result (λ b. b ≡ key_bytes point.now) }
    ensures read { IfOk result (λ b. IsReadAs key_of b point.now) }
{
    let map = MapBuild::new(alloc, 4)?
        .labelled_uint(1, 2)?
        .labelled_uint(-1, 1)?
        .labelled_bytes(-2, &point.x)?
        .labelled_bytes(-3, &point.y)?;
    Ok(map.finish())
}

/// The unprotected map: the chain under label 33, where there is one.
#[tactic(auto, unfolding(crate::specs::Written::chain_map))]
fn write_chain(alloc: Global, chain: Option<&[u8]>) -> Result<Octets, Memory>
    ensures written { IfOk result (λ b. b ≡ chain_map (option_map content chain.entry)) }
    ensures short { OnOk result (IfSome chain.entry (λ b. length b.now < 2 ^ 32)) }
{
    match chain {
        Some(chain) => {
            let map = MapBuild::new(alloc, 1)?.labelled_bytes(CHAIN, chain)?;
            Ok(map.finish())
        }
        None => {
            let map = MapBuild::new(alloc, 0)?;
            Ok(map.finish())
        }
    }
}

/// Appends a payload, or null where it is detached.
fn append_payload(out: &mut Build, payload: Option<&[u8]>) -> Result<(), Memory>
    ensures ok { OnOk result (out.new ≡ out.old ++ payload_bytes (option_map content payload.entry)) }
    ensures short { OnOk result (IfSome payload.entry (λ b. length b.now < 2 ^ 32)) }
    ensures err { OnErr result (out.new ≡ out.old) }
{
    match payload {
        Some(payload) => out.bytes(payload),
        None => out.null(),
    }
}

/// Room for the heads, the protected map and the signature of a COSE_Sign1.
const FIXED_ROOM: usize = 84;

/// Room for a COSE_Sign1.
fn sign1_room(unprotected: &Octets, payload: Option<&[u8]>) -> usize {
    let content = match payload {
        Some(bytes) => bytes.len(),
        None => 0,
    };
    unprotected
        .as_slice()
        .len()
        .saturating_add(content)
        .saturating_add(FIXED_ROOM)
}

/// A signature of one signer with ES256, untagged (COSE_Sign1; RFC 9052, section 4.2): the chain is one
/// certificate, and a payload that isn't given is detached.
#[tactic(auto, using(crate::proofs::FourParts::four_parts), unfolding(crate::specs::Written::sign1_bytes, crate::specs::Written::es256, cbor_maps::specs::Labels::label_bytes, cbor_maps::specs::Writing::map_head))]
pub fn write_sign1(
    alloc: Global,
    chain: Option<&[u8]>,
    payload: Option<&[u8]>,
    signature: &[u8; 64],
) -> Result<Octets, Memory>
    ensures written { IfOk result (λ b. b ≡ sign1_bytes (option_map content chain.entry) (option_map content payload.entry) signature.now) }
    ensures read { IfOk result (λ b. IsReadAs sign1 b (record { protected = es256; chain = option_map content chain.entry; payload = option_map content payload.entry; signature = signature.now })) }
{
    let unprotected = write_chain(alloc, chain)?;
    let mut out = Build::with_room(alloc, sign1_room(&unprotected, payload))?;
    out.array(4)?;
    out.bytes(&PROTECTED_ES256)?;
    out.append(unprotected.as_slice())?;
    append_payload(&mut out, payload)?;
    out.bytes(signature)?;
    Ok(out.finish())
}

/// A code of HMAC 256/256 over a detached payload, untagged (COSE_Mac0; RFC 9052, section 6.2).
#[tactic(auto, using(crate::proofs::FourParts::four_parts), unfolding(crate::specs::Written::mac0_bytes, crate::specs::Written::hmac256, crate::specs::Written::chain_map, cbor_maps::specs::Labels::label_bytes, cbor_maps::specs::Writing::map_head))]
pub fn write_mac0(alloc: Global, tag: &[u8; 32]) -> Result<Octets, Memory>
    ensures written { IfOk result (λ b. b ≡ mac0_bytes tag.now) }
    ensures read { IfOk result (λ b. IsReadAs mac0 b (record { protected = hmac256; payload = None; tag = tag.now })) }
{
    let mut out = Build::new(alloc);
    out.array(4)?;
    out.bytes(&PROTECTED_HMAC_256)?;
    out.map(0)?;
    out.null()?;
    out.bytes(tag)?;
    Ok(out.finish())
}
