//! The items of a copy.

ghost use Rattle.std.specs.Prelude.{◌≡◌, Err, IfOk, IfSome, Ok, false, true};
ghost use Rattle.doc_store.specs.CopyItems.{copy_items_left};
ghost use Rattle.issuer_items.specs.Item.{item};
ghost use Rattle.issuer_items.specs.ItemView.{fields, raw_of};
ghost use Rattle.mso_digests.specs.Digests.{have_length};
ghost use Rattle.mso_digests.specs.MsoView.{object_seen};
ghost use Rattle.verdict_model.specs.Checked.{ItemFails, item_check, items_check, named};
ghost use Rattle.reader_checks.specs.PackageEnding.{came_to, copy_fails, is_unanswered};

use crate::failure::Failure;
use crate::stored_digest::digest_check;
use doc_store::CopyItems;
use issuer_items::Item;
use mdoc_outside::{Memory, Octets};
use mso_digests::Mso;
use std::alloc::Global;
use verdict_model::{ElementCheck, Named};

/// The names of an item.
fn named(alloc: Global, doc_type: &str, ns: &str, name: &str) -> Result<Named, Memory>
    ensures { IfOk result (λ it. it ≡ named doc_type.now ns.now name.now) }
{
    let doc_type = Octets::copy_of(alloc, doc_type.as_bytes())?;
    let ns = Octets::copy_of(alloc, ns.as_bytes())?;
    let name = Octets::copy_of(alloc, name.as_bytes())?;
    Ok(Named { doc_type, ns, name })
}

/// The failure of a check of an item.
fn failed(alloc: Global, doc_type: &str, ns: &str, name: &str, check: ElementCheck) -> Failure
    ensures exact { IfSome (came_to (Err result)) (λ it. it ≡ Err (ItemFails (named doc_type.now ns.now name.now) check)) }
    ensures calm { is_unanswered result ≡ false }
{
    match named(alloc, doc_type, ns, name) {
        Ok(element) => Failure::ItemFails(element, check),
        Err(_) => Failure::Memory,
    }
}

/// Whether the object has the digest of an item, as it is stored.
fn item_check(
    alloc: Global,
    object: &Mso<'_>,
    doc_type: &str,
    ns: &str,
    stored: &[u8],
) -> Result<(), Failure>
    requires { have_length (object_seen object.now).digests ≡ true }
    ensures exact { IfSome (came_to result) (λ it. it ≡ item_check (object_seen object.now) doc_type.now (ns.now, stored.now) (item stored.now) (Ok tt)) }
    ensures calm { copy_fails result ≡ false }
{
    match Item::read(stored) {
        Ok(item) => match digest_check(object, ns, &item) {
            None => Ok(()),
            Some(check) => Err(failed(alloc, doc_type, ns, item.name(), check)),
        },
        Err(_) => Err(failed(alloc, doc_type, ns, "", ElementCheck::ItemForm)),
    }
}

/// Whether the object has the digest of each item, in order (ISO/IEC 18013-5, 9.1.2.4).
pub(crate) fn items_check(
    alloc: Global,
    object: &Mso<'_>,
    doc_type: &str,
    items: CopyItems<'_>,
) -> Result<(), Failure>
    requires { have_length (object_seen object.now).digests ≡ true }
    ensures exact { IfSome (came_to result) (λ it. it ≡ items_check (object_seen object.now) doc_type.now (copy_items_left items.entry)) }
    ensures calm { copy_fails result ≡ false }
{
    for (ns, stored) in items {
        match item_check(alloc, object, doc_type, ns, stored) {
            Ok(()) => {}
            Err(failure) => return Err(failure),
        }
    }
    Ok(())
}
