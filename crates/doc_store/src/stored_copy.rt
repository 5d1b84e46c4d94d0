//! A copy of a document.

ghost use Rattle.std.specs.Prelude.{◌≡◌, true, [], IfSome, Some, is_some, length, option_map, unwrap_or};
ghost use Rattle.std.specs.List.{flat_map};
ghost use Rattle.cbor_view.specs.Pairs.{pairs_left};
ghost use Rattle.cbor_view.specs.Parts.{LiesIn, PairsLieIn, items_in};
ghost use Rattle.cbor_view.specs.View.{part};
ghost use Rattle.cbor_maps.specs.Contents.{IsPart};
ghost use Rattle.mdoc_outside.specs.OptionSteps.{each};
ghost use Rattle.doc_store.specs.Held.{held};
ghost use Rattle.doc_store.specs.Store.{copy, namespace, spread};

use crate::copy_fields::{read_issuer_auth, read_key, read_spaces, read_used};
use crate::copy_items::CopyItems;
use crate::held_item::find_in_space;
use cbor_view::{Pairs, View};

/// A copy of a document, as an issuer made it for one device key.
#[derive(Clone, Copy)]
pub struct StoredCopy<'a> {
    pub(crate) stored: View<'a>,
    ghost spelled: { is_some (copy (part stored)) ≡ true },
}

impl<'a> StoredCopy<'a> {
    ghost use Rattle.doc_store.specs.CopyItems.{copy_items_left};
    ghost use Rattle.doc_store.specs.PartsLie.{AreItemParts};
    ghost use Rattle.doc_store.specs.StoredCopy.{copy_of, copy_part};

    /// The number of its device key.
    pub fn key(&self) -> u32
        ensures { result ≡ (copy_of self.now).key }
    {
        match read_key(&self.stored) {
            Some(key) => key,
            None => unreachable!(),
        }
    }

    /// Whether it was used.
    pub fn used(&self) -> bool
        ensures { result ≡ (copy_of self.now).used }
    {
        match read_used(&self.stored) {
            Some(used) => used,
            None => unreachable!(),
        }
    }

    /// The issuer's signature (ISO/IEC 18013-5, 9.1.2.4), an array of four as it is stored.
    pub fn issuer_auth(&self) -> View<'a>
        ensures stored { (part result).bytes ≡ (copy_of self.now).issuer_auth }
        ensures four { option_map length (items_in (part result)) ≡ Some 4 }
        ensures stands_in { LiesIn (copy_part self.now) (part result) }
    {
        match read_issuer_auth(&self.stored) {
            Some(auth) => auth,
            None => unreachable!(),
        }
    }

    /// The item of that namespace and name, as it is stored (IssuerSignedItemBytes;
    /// ISO/IEC 18013-5, 8.3.2.1.2.2).
    #[tactic(auto, using(crate::proofs::HeldItems::held_all_step))]
    pub fn item(&self, ns: &str, name: &str) -> Option<&'a [u8]>
        ensures exact { option_map (λ b. b.now) result ≡ held (copy_of self.now) ns.now name.now }
        ensures stands_in { IfSome result (λ b. IsPart (copy_part self.now).bytes b.now) }
    {
        for (space, items) in self.spaces() {
            match find_in_space(&space, &items, ns, name) {
                Some(item) => return Some(item),
                None => {}
            }
        }
        None
    }

    /// All items, each with its namespace, in the order of the store.
    pub fn items(&self) -> CopyItems<'a>
        ensures exact { copy_items_left result ≡ (copy_of self.now).items }
        ensures lie { AreItemParts (copy_part self.now).bytes (copy_items_left result) }
    {
        let ns = "";
        let items = None;
        let spaces = self.spaces();
        CopyItems { ns, items, spaces }
    }

    #[tactic(auto, using(crate::proofs::HeldItems::items_spaces))]
    fn spaces(&self) -> Pairs<'a>
        ensures read { is_some (each namespace (pairs_left result)) ≡ true }
        ensures all { (copy_of self.now).items
            ≡ flat_map spread (unwrap_or (each namespace (pairs_left result)) []) }
        ensures lie { PairsLieIn (copy_part self.now) (pairs_left result) }
    {
        match read_spaces(&self.stored) {
            Some(spaces) => spaces,
            None => unreachable!(),
        }
    }
}
