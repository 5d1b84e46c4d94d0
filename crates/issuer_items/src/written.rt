//! Writing of issuer-signed items.

ghost use Rattle.std.specs.Prelude.{◌≡◌, ◌≤◌, ◌<◌, ◌^◌, ℕ, List, length, IfOk, OnOk, Ok};
ghost use Rattle.cbor_view.specs.Spelling.{AreBytes};
ghost use Rattle.cbor_view.specs.Tree.{levels};
ghost use Rattle.cbor_view.specs.View.{part, tree};
ghost use Rattle.issuer_items.specs.Item.{Item, item};
ghost use Rattle.issuer_items.specs.WrittenItem.{item_map, item_bytes, IsWritable};

use cbor_maps::MapBuild;
use cbor_view::{ENCODED, View};
use cbor_write::Build;
use mdoc_outside::{KeyName, Memory, Octets};
use std::alloc::Global;

/// The bytes of the map IssuerSignedItem, whose value is spelled already.
#[tactic(auto, unfolding(crate::specs::WrittenItem::item_map))]
fn write_map(
    alloc: Global,
    id: u64,
    salt: &[u8],
    name: &str,
    value: &[u8],
) -> Result<Octets, Memory>
    ensures written { IfOk result (λ b. b ≡ item_map (record { digest_id = id; random = salt.now; name = name.now; value = value.now })) }
    ensures salt { OnOk result (length salt.now < 2 ^ 32) }
    ensures name { OnOk result (length name.now < 2 ^ 32) }
    ensures value { AreBytes value.now }
{
    let map = MapBuild::new(alloc, 4)?
        .uint(KeyName::DigestId, id)?
        .bytes(KeyName::Random, salt)?
        .text(KeyName::ElementIdentifier, name)?
        .spelled(KeyName::ElementValue, value)?;
    Ok(map.finish())
}

/// The bytes of an issuer-signed item (IssuerSignedItemBytes; ISO/IEC 18013-5, 8.3.2.1.2.2), which are read
/// as that item. A string of 2^32 bytes or more has no spelling here, and is answered by want of memory.
pub fn write_item(
    alloc: Global,
    id: u64,
    salt: &[u8],
    name: &str,
    value: View<'_>,
) -> Result<Octets, Memory>
    requires { levels (tree value) ≤ 31 }
    ensures written { IfOk result (λ b. b ≡ item_bytes (record { digest_id = id; random = salt.now; name = name.now; value = (part value.entry).bytes })) }
    ensures read { IfOk result (λ b. item b ≡ Ok (record { digest_id = id; random = salt.now; name = name.now; value = (part value.entry).bytes })) }
{
    let spelled = value.raw();
    let map = write_map(alloc, id, salt, name, spelled)?;
    let mut out = Build::new(alloc);
    out.tag(ENCODED)?;
    out.bytes(map.as_slice())?;
    Ok(out.finish())
}
