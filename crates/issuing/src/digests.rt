//! The digests of the items of a copy.

ghost use Rattle.std.specs.Prelude.{◌≡◌, length, IfOk};
ghost use Rattle.issue_spec.specs.SpecFacts.{AreElements};
ghost use Rattle.issuing.specs.IssuedItems.{entries_of, entry_of, items_of};

use crate::issued_item::IssuedItem;
use crate::items::write_one;
use issue_spec::SpecElement;
use mdoc_outside::{Memory, Octets, Rows};
use sha2::{Digest, Sha256};
use std::alloc::Global;

/// The digest of an item (ISO/IEC 18013-5, 9.1.2.4): the SHA-256 of its bytes as they are written, with its namespace
/// and its digest identifier.
fn digest_of(item: IssuedItem) -> (Octets, u64, [u8; 32])
    ensures { result ≡ entry_of item }
{
    let IssuedItem { ns, number, raw } = item;
    (ns, number, Sha256::digest(raw.as_slice()))
}

/// The digests of the items of a spec's elements, each with its salt, in their order. No item is held once its digest
/// is taken.
pub fn item_digests(
    alloc: Global,
    elements: &[SpecElement],
    salts: &[[u8; 32]],
) -> Result<Rows<(Octets, u64, [u8; 32])>, Memory>
    requires elements { AreElements elements.now }
    requires salts { length salts.now ≡ length elements.now }
    ensures { IfOk result (λ entries. entries ≡ entries_of (items_of elements.now salts.now)) }
{
    let mut entries = Vec::new(alloc);
    for (place, element) in elements.iter().enumerate() {
        entries.reserve(1)?;
        let item = write_one(alloc, &elements[..place], element, &salts[place])?;
        entries.push_reserved(digest_of(item));
    }
    Ok(Rows::from_vec(entries))
}
