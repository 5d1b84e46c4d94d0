//! Writing of an engagement.

ghost use Rattle.std.specs.Prelude.{◌≡◌, ◌<◌, ◌^◌, IfOk, OnOk, Ok, Some, codes, length, option_map, pos};
ghost use Rattle.mdoc_outside.specs.Borrowed.{content};
ghost use Rattle.cbor_view.specs.Shortest.{text_bytes};
ghost use Rattle.cbor_maps.specs.Labels.{put_labelled};
ghost use Rattle.cose_msgs.specs.Key.{key_of};
ghost use Rattle.cose_msgs.specs.Written.{IsReadAs, key_bytes};
ghost use Rattle.engagement.specs.Engagement.{engagement};
ghost use Rattle.engagement.specs.WrittenEngagement.{engagement_bytes, methods_bytes, options_bytes, security_bytes};

use crate::engagement::{RETRIEVAL_METHODS, SECURITY, VERSION};
use cbor_view::ENCODED;
use cbor_write::Build;
use cose_msgs::write_key;
use key_device::Point;
use mdoc_outside::{Memory, Octets};
use std::alloc::Global;

/// The cipher suite of ISO/IEC 18013-5, 9.1.5.2.
const SUITE: u64 = 1;

/// The type of the retrieval method Bluetooth Low Energy (8.2.1.1), and its version.
const BLUETOOTH_LOW_ENERGY: u64 = 2;

const METHOD_VERSION: u64 = 1;

/// The options of that method: whether the device is a peripheral server, whether it is a central client, and
/// the UUID of the server.
const PERIPHERAL_SERVER: i64 = 0;

const CENTRAL_CLIENT: i64 = 1;

const SERVER_UUID: i64 = 10;

/// The cipher suite and the device key.
#[tactic(auto, using(crate::proofs::Appended::two_parts), unfolding(crate::specs::WrittenEngagement::security_bytes))]
fn write_security(alloc: Global, point: &Point) -> Result<Octets, Memory>
    ensures written { IfOk result (λ b. b ≡ security_bytes (key_bytes point.now)) }
    ensures short { OnOk result (length (key_bytes point.now) < 2 ^ 32) }
    ensures read { OnOk result (IsReadAs key_of (key_bytes point.now) point.now) }
{
    let key = write_key(alloc, point)?;
    let mut out = Build::new(alloc);
    out.array(2)?;
    out.uint(SUITE)?;
    out.tag(ENCODED)?;
    out.bytes(key.as_slice())?;
    Ok(out.finish())
}

/// The options of a peripheral server of that UUID.
#[tactic(auto, unfolding(crate::specs::WrittenEngagement::options_bytes, cbor_maps::specs::Labels::label_bytes, cbor_maps::specs::Writing::map_head))]
fn write_options(alloc: Global, uuid: &[u8; 16]) -> Result<Octets, Memory>
    ensures written { IfOk result (λ b. b ≡ options_bytes uuid.now) }
    ensures short { OnOk result (length uuid.now < 2 ^ 32) }
{
    let mut out = Build::new(alloc);
    out.map(3)?;
    out.int(PERIPHERAL_SERVER)?;
    out.boolean(true)?;
    out.int(CENTRAL_CLIENT)?;
    out.boolean(false)?;
    out.int(SERVER_UUID)?;
    out.bytes(uuid)?;
    Ok(out.finish())
}

/// The retrieval methods: Bluetooth Low Energy alone.
#[tactic(auto, using(crate::proofs::Appended::one_method), unfolding(crate::specs::WrittenEngagement::methods_bytes))]
fn write_methods(alloc: Global, uuid: &[u8; 16]) -> Result<Octets, Memory>
    ensures written { IfOk result (λ b. b ≡ methods_bytes uuid.now) }
    ensures short { OnOk result (length uuid.now < 2 ^ 32) }
{
    let options = write_options(alloc, uuid)?;
    let mut out = Build::new(alloc);
    out.array(1)?;
    out.array(3)?;
    out.uint(BLUETOOTH_LOW_ENERGY)?;
    out.uint(METHOD_VERSION)?;
    out.append(options.as_slice())?;
    Ok(out.finish())
}

/// Appends the version and the security.
#[tactic(auto, unfolding(cbor_maps::specs::Labels::label_bytes))]
fn append_needed(out: &mut Build, security: &[u8]) -> Result<(), Memory>
    ensures { OnOk result (out.new ≡ put_labelled (put_labelled out.old (pos 0) (Some (text_bytes (codes "1.0")))) (pos 1) (Some security.now)) }
{
    out.int(VERSION)?;
    out.text("1.0")?;
    out.int(SECURITY)?;
    out.append(security)
}

/// A device engagement of that key (ISO/IEC 18013-5, 8.2.1.1), which is read as the key. With a UUID the device
/// is reached by Bluetooth Low Energy as a peripheral server of that UUID; without one the engagement names no
/// retrieval method.
#[tactic(auto, unfolding(crate::specs::WrittenEngagement::engagement_bytes, cbor_maps::specs::Labels::label_bytes, cbor_maps::specs::Writing::map_head))]
pub fn write_engagement(
    alloc: Global,
    point: &Point,
    uuid: Option<&[u8; 16]>,
) -> Result<Octets, Memory>
    ensures written { IfOk result (λ b. b ≡ engagement_bytes point.now (option_map content uuid.entry)) }
    ensures read { IfOk result (λ b. engagement b ≡ Ok point.now) }
{
    let security = write_security(alloc, point)?;
    let mut out = Build::new(alloc);
    match uuid {
        Some(uuid) => {
            let methods = write_methods(alloc, uuid)?;
            out.map(3)?;
            append_needed(&mut out, security.as_slice())?;
            out.int(RETRIEVAL_METHODS)?;
            out.append(methods.as_slice())?;
            Ok(out.finish())
        }
        None => {
            out.map(2)?;
            append_needed(&mut out, security.as_slice())?;
            Ok(out.finish())
        }
    }
}
