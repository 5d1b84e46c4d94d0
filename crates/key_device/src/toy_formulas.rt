// The formulas of the toy device.
ghost use Rattle.std.specs.Prelude.{◌≡◌, ◌++◌};
ghost use Rattle.key_device.specs.Toy.{in_eight, point_bytes, toy_digest, toy_point, is_refused, is_first, toy_secret, toy_signature};

use crate::Point;
use byteorder::{BigEndian, ByteOrder};
use sha2::{Digest, Sha256};

// The number in 8 bytes, big-endian.
#[tactic(auto, unfolding(crate::specs::Toy::in_eight))]
fn in_eight(number: u64) -> [u8; 8]
    ensures { result ≡ in_eight number }
{
    let mut bytes = [0; 8];
    BigEndian::write_u64(&mut bytes, number);
    bytes
}

// 32 bytes and 32 more.
fn join(first: &[u8; 32], second: &[u8; 32]) -> [u8; 64]
    ensures { result ≡ first.now ++ second.now }
{
    let mut bytes = [0; 64];
    bytes[32..].copy_from_slice(second);
    bytes[..32].copy_from_slice(first);
    bytes
}

// x, then y.
fn point_bytes(point: &Point) -> [u8; 64]
    ensures { result ≡ point_bytes point.now }
{
    join(&point.x, &point.y)
}

// The digest under all formulas: of a name, the seed and two parts.
#[tactic(auto, unfolding(crate::specs::Toy::toy_digest))]
fn toy_digest(name: &[u8], seed: u64, first: &[u8], second: &[u8]) -> [u8; 32]
    ensures { result ≡ toy_digest name.now seed first.now second.now }
{
    let mut hasher = Sha256::new();
    hasher.update(name);
    hasher.update(&in_eight(seed)[..]);
    hasher.update(first);
    hasher.update(second);
    hasher.finalize()
}

// The public key of an owner's key.
pub(crate) fn toy_point(seed: u64, owner: u64, key: u32) -> Point
    ensures { result ≡ toy_point seed owner key }
{
    let owner = in_eight(owner);
    let key = in_eight(key as u64);
    Point {
        x: toy_digest(b"mdoc-toy-x", seed, &owner, &key),
        y: toy_digest(b"mdoc-toy-y", seed, &owner, &key),
    }
}

// Whether the peer's public key is refused: its x is all zero.
pub(crate) fn is_refused(peer: &Point) -> bool
    ensures { result ≡ is_refused peer.now }
{
    peer.x.iter().all(|byte| *byte == 0)
}

// Whether one doesn't come after the other in the order of bytes.
fn is_first(one: &[u8], other: &[u8]) -> bool
    ensures { result ≡ is_first one.now other.now }
{
    one.cmp(&other).is_le()
}

// The secret of two public keys, whichever of them is the own one.
pub(crate) fn toy_secret(seed: u64, own: &Point, peer: &Point) -> [u8; 32]
    ensures { result ≡ toy_secret seed own.now peer.now }
{
    let own = point_bytes(own);
    let peer = point_bytes(peer);
    if is_first(&own, &peer) {
        toy_digest(b"mdoc-toy-agree", seed, &own, &peer)
    } else {
        toy_digest(b"mdoc-toy-agree", seed, &peer, &own)
    }
}

// A public key's signature of a message.
pub(crate) fn toy_signature(seed: u64, public: &Point, message: &[u8]) -> [u8; 64]
    ensures { result ≡ toy_signature seed public.now message.now }
{
    let public = point_bytes(public);
    join(
        &toy_digest(b"mdoc-toy-r", seed, &public, message),
        &toy_digest(b"mdoc-toy-s", seed, &public, message),
    )
}
