//! The items of a copy by their names.

ghost use Rattle.std.specs.Prelude.{◌≡◌, ◌&&◌, if◌then◌else◌, ℕ, List, IfOk, OnOk, None, Some, option_map};
ghost use Rattle.std.specs.Option.{option_or};
ghost use Rattle.std.specs.Str.{bytes_eq};
ghost use Rattle.mdoc_outside.specs.Borrowed.{content};
ghost use Rattle.doc_store.specs.Held.{is_item};
ghost use Rattle.doc_store.specs.StoredCopy.{copy_of};
ghost use Rattle.wallet_answer.specs.Found.{AreItemsOf, found_item, named_item};

use doc_store::StoredCopy;
use issuer_items::Item;
use mdoc_outside::Memory;
use std::alloc::Global;
use std::collections::BTreeMap;

/// The items of a stored copy (IssuerSignedItemBytes; ISO/IEC 18013-5, 8.3.2.1.2.2), by their namespaces and element
/// identifiers.
#[derive(Drop)]
pub struct HeldItems<'a> {
    namespaces: BTreeMap<&'a str, BTreeMap<&'a str, &'a [u8]>>,
}

/// Adds an item, where there is none of that name.
fn put_named<'a>(
    items: &mut BTreeMap<&'a str, &'a [u8]>,
    name: &'a str,
    raw: &'a [u8],
) -> Result<(), Memory>
    ensures { OnOk result ((own : List ℕ) → named_item items.new own ≡ option_or (named_item items.old own) (if bytes_eq name.now own then Some raw.now else None)) }
{
    if !items.contains_key(name) {
        items.insert(name, raw)?;
    }
    Ok(())
}

impl<'a> HeldItems<'a> {
    /// The items of a copy. It takes memory, and each item is read once.
    #[tactic(auto, using(crate::proofs::FoundItems::first_alone, crate::proofs::FoundItems::first_more))]
    pub fn of(alloc: Global, copy: &StoredCopy<'a>) -> Result<HeldItems<'a>, Memory>
        ensures { IfOk result (λ items. AreItemsOf items (copy_of copy.now)) }
    {
        let mut held = HeldItems {
            namespaces: BTreeMap::new(alloc),
        };
        for (ns, raw) in copy.items() {
            held.put(alloc, ns, raw)?;
        }
        Ok(held)
    }

    /// Adds what is stored in a namespace, where it is an issuer-signed item.
    #[tactic(auto, using(crate::proofs::FoundItems::none_more), unfolding(doc_store::specs::Item::item))]
    fn put(&mut self, alloc: Global, ns: &'a str, raw: &'a [u8]) -> Result<(), Memory>
        ensures { OnOk result ((space : List ℕ) (name : List ℕ) → found_item self.new space name ≡ option_or (found_item self.old space name) (if is_item space name (ns.now, raw.now) then Some raw.now else None)) }
    {
        match Item::read(raw) {
            Ok(item) => self.put_item(alloc, ns, item.name(), raw),
            Err(_) => Ok(()),
        }
    }

    /// Adds an item of a namespace and a name, where there is none.
    fn put_item(
        &mut self,
        alloc: Global,
        ns: &'a str,
        name: &'a str,
        raw: &'a [u8],
    ) -> Result<(), Memory>
        ensures { OnOk result ((space : List ℕ) (own : List ℕ) → found_item self.new space own ≡ option_or (found_item self.old space own) (if bytes_eq ns.now space && bytes_eq name.now own then Some raw.now else None)) }
    {
        let mut items = self.take(alloc, ns);
        put_named(&mut items, name, raw)?;
        self.namespaces.insert(ns, items)?;
        Ok(())
    }

    /// Takes out the items of a namespace.
    fn take(&mut self, alloc: Global, ns: &str) -> BTreeMap<&'a str, &'a [u8]>
        ensures taken { (name : List ℕ) → named_item result name ≡ found_item self.old ns.now name }
        ensures left { (space : List ℕ) (name : List ℕ) → found_item self.new space name ≡ (if bytes_eq ns.now space then None else found_item self.old space name) }
    {
        match self.namespaces.remove(ns) {
            Some(items) => items,
            None => BTreeMap::new(alloc),
        }
    }

    /// The item of that namespace and name, as it is stored, none where there is no such item.
    pub fn item(&self, ns: &str, name: &str) -> Option<&'a [u8]>
        ensures { option_map content result ≡ found_item self.now ns.now name.now }
    {
        self.namespaces.get(ns)?.get(name).copied()
    }
}
