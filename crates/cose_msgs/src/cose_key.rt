//! A key.

ghost use Rattle.std.specs.Prelude.{◌≡◌, option_map, Some};
ghost use Rattle.cbor_maps.specs.Reading.{once};
ghost use Rattle.cbor_view.specs.Parts.{bytes_in};
ghost use Rattle.cbor_view.specs.Reading.{Gives};
ghost use Rattle.cbor_view.specs.View.{part};
ghost use Rattle.cbor_maps.specs.Labels.{labelled};
ghost use Rattle.cose_msgs.specs.declared.key_fault.KeyFault.TheVariants.{Doubled};
ghost use Rattle.cose_msgs.specs.Key.{coordinate, is_boolean, is_uint, key_of, key_of_map};
ghost use Rattle.cose_msgs.specs.Steps.{of_length};

use crate::KeyFault;
use cbor_view::{Key, View};
use key_device::Point;

/// The labels of a key, and the values that they have to have (RFC 9052, section 7.1; RFC 9053, section
/// 7.1.1).
const KIND: i64 = 1;

const TWO_COORDINATES: u64 = 2;

const CURVE: i64 = -1;

const P_256: u64 = 1;

const X: i64 = -2;

const Y: i64 = -3;

/// A public key of the curve P-256 (RFC 9052, section 7). Nothing says that the point lies on the curve.
#[derive(Clone, Copy, Debug, PartialEq, Eq)]
pub struct CoseKey {
    /// The point.
    pub point: Point,
}

impl CoseKey {
    /// The key that an item is. Other labels are ignored.
    pub fn read(v: View<'_>) -> Result<CoseKey, KeyFault>
        ensures { Gives (λ k. k.point) result (key_of (part v.entry)) }
    {
        match v.pairs() {
            Some(_) => CoseKey::of_map(v),
            None => Err(KeyFault::NotMap),
        }
    }

    /// The key that a map is.
    fn of_map(map: View<'_>) -> Result<CoseKey, KeyFault>
        ensures { Gives (λ k. k.point) result (key_of_map (part map.entry)) }
    {
        let kind = once(map, KIND)?;
        let curve = once(map, CURVE)?;
        let first = once(map, X)?;
        let second = once(map, Y)?;
        if !is_uint(kind, TWO_COORDINATES) {
            return Err(KeyFault::Kind);
        }
        if !is_uint(curve, P_256) {
            return Err(KeyFault::Curve);
        }
        if is_boolean(second) {
            return Err(KeyFault::Compressed);
        }
        let x = coordinate(first)?;
        let y = coordinate(second)?;
        Ok(CoseKey {
            point: Point { x, y },
        })
    }
}

/// What is under a label that may be there once.
#[tactic(auto, unfolding(cbor_maps::specs::Labels::labelled))]
fn once(map: View<'_>, label: i64) -> Result<Option<View<'_>>, KeyFault>
    ensures { Gives (option_map part) result (once Doubled (labelled (part map.entry) label)) }
{
    match map.entry(Key::Int(label)) {
        Ok(found) => Ok(found),
        Err(_) => Err(KeyFault::Doubled),
    }
}

/// Whether it is that unsigned number.
fn is_uint(found: Option<View<'_>>, number: u64) -> bool
    ensures { result ≡ is_uint number (option_map part found.entry) }
{
    match found {
        Some(value) => match value.uint() {
            Some(own) => own == number,
            None => false,
        },
        None => false,
    }
}

/// Whether it is a truth value.
fn is_boolean(found: Option<View<'_>>) -> bool
    ensures { result ≡ is_boolean (option_map part found.entry) }
{
    match found {
        Some(value) => value.boolean().is_some(),
        None => false,
    }
}

/// A coordinate: a string of 32 bytes.
fn coordinate(found: Option<View<'_>>) -> Result<[u8; 32], KeyFault>
    ensures { Gives (λ b. b) result (coordinate (option_map part found.entry)) }
{
    let Some(value) = found else {
        return Err(KeyFault::Coordinate);
    };
    let Some(bytes) = value.bytes() else {
        return Err(KeyFault::Coordinate);
    };
    match bytes.as_array::<32>() {
        Some(array) => Ok(*array),
        None => Err(KeyFault::Coordinate),
    }
}
