//! The device's authentication in its form.

ghost use Rattle.std.specs.Prelude.{◌≡◌, option_map};
ghost use Rattle.cbor_view.specs.View.{part};
ghost use Rattle.reader_checks.specs.Views.{proof_seen};
ghost use Rattle.verdict_model.specs.Shown.{device_proof, mac_of, signature_of};

use cbor_maps::NamedMap;
use cbor_view::View;
use cose_msgs::{Mac0, Sign1};
use mdoc_outside::KeyName;

/// The device's authentication (ISO/IEC 18013-5, 9.1.3): exactly one of a signature and a code, its payload detached.
#[derive(Clone, Copy)]
pub(crate) enum DeviceProof<'a> {
    /// A signature.
    BySignature(Sign1<'a>),
    /// A code.
    ByMac(Mac0<'a>),
}

/// The signature that an item is, with a detached payload.
fn signature_of(item: View<'_>) -> Option<DeviceProof<'_>>
    ensures { option_map proof_seen result ≡ signature_of (part item.entry) }
{
    let Ok(signed) = Sign1::read(item) else {
        return None;
    };
    if signed.payload().is_some() {
        return None;
    }
    Some(DeviceProof::BySignature(signed))
}

/// The code that an item is, with a detached payload.
fn mac_of(item: View<'_>) -> Option<DeviceProof<'_>>
    ensures { option_map proof_seen result ≡ mac_of (part item.entry) }
{
    let Ok(code) = Mac0::read(item) else {
        return None;
    };
    if code.payload().is_some() {
        return None;
    }
    Some(DeviceProof::ByMac(code))
}

/// The authentication that a map is, where it has its form.
pub(crate) fn device_proof<'a>(map: View<'a>) -> Option<DeviceProof<'a>>
    ensures { option_map proof_seen result ≡ device_proof (part map.entry) }
{
    let map = NamedMap::new(&map, &[KeyName::DeviceSignature, KeyName::DeviceMac]);
    let Ok(signature) = map.optional_item(KeyName::DeviceSignature) else {
        return None;
    };
    let Ok(mac) = map.optional_item(KeyName::DeviceMac) else {
        return None;
    };
    match (signature, mac) {
        (Some(signature), None) => signature_of(signature),
        (None, Some(mac)) => mac_of(mac),
        (Some(_), Some(_)) => None,
        (None, None) => None,
    }
}
