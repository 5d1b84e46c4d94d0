//! The issuer-signed item.

ghost use Rattle.std.specs.Prelude.{◌≡◌, IfOk};
ghost use Rattle.cbor_view.specs.Parts.{Part};
ghost use Rattle.cbor_view.specs.Reading.{Gives};
ghost use Rattle.cbor_view.specs.View.{part};
ghost use Rattle.issuer_items.specs.Item.{item, item_of_map};

use crate::ItemFault;
use cbor_maps::{MapFault, NamedMap};
use cbor_view::{ENCODED, View};
use mdoc_outside::KeyName;

/// An issuer-signed item (ISO/IEC 18013-5, 8.3.2.1.2.2), borrowed from the bytes that spell it.
#[derive(Clone, Copy)]
pub struct Item<'a> {
    raw: &'a [u8],
    digest_id: u64,
    random: &'a [u8],
    name: &'a str,
    value: View<'a>,
}

impl<'a> Item<'a> {
    ghost use Rattle.issuer_items.specs.ItemView.{fields, raw_of, AreParts};

    /// The item that IssuerSignedItemBytes spell: tag 24 over the bytes of its map. Each of the four keys
    /// is there once, and other keys are ignored.
    #[tactic(auto, unfolding(crate::specs::Item::item))]
    pub fn read(raw: &'a [u8]) -> Result<Item<'a>, ItemFault>
        ensures exact { Gives fields result (item raw.now) }
        ensures raw { IfOk result (λ it. raw_of it ≡ raw.now) }
        ensures stands_in { IfOk result (λ it. AreParts raw.now (fields it)) }
    {
        let Ok(whole) = View::read(raw) else {
            return Err(ItemFault::NotTagged);
        };
        let Some((ENCODED, tagged)) = whole.tag() else {
            return Err(ItemFault::NotTagged);
        };
        let Some(inside) = tagged.bytes() else {
            return Err(ItemFault::NotTagged);
        };
        let map = match View::read(inside) {
            Ok(map) => map,
            Err(fault) => return Err(ItemFault::Cbor(fault)),
        };
        match Item::of_map(raw, &map) {
            Ok(item) => Ok(item),
            Err(MapFault::Doubled(name)) => Err(ItemFault::Doubled(name)),
            Err(MapFault::Field(name)) => Err(ItemFault::Field(name)),
        }
    }

    /// The item of a map IssuerSignedItem.
    fn of_map(raw: &'a [u8], map: &View<'a>) -> Result<Item<'a>, MapFault>
        ensures exact { Gives fields result (item_of_map (part map.now)) }
        ensures raw { IfOk result (λ it. raw_of it ≡ raw.now) }
    {
        let map = NamedMap::new(
            map,
            &[
                KeyName::DigestId,
                KeyName::Random,
                KeyName::ElementIdentifier,
                KeyName::ElementValue,
            ],
        );
        map.distinct()?;
        let digest_id = map.uint(KeyName::DigestId)?;
        let random = map.bytes(KeyName::Random)?;
        let name = map.text(KeyName::ElementIdentifier)?;
        let value = map.item(KeyName::ElementValue)?;
        Ok(Item {
            raw,
            digest_id,
            random,
            name,
            value,
        })
    }

    /// The bytes that the item was read from, over which its digest is taken (9.1.2.4).
    pub fn raw(&self) -> &'a [u8]
        ensures { result.now ≡ raw_of self.now }
    {
        self.raw
    }

    /// The digest identifier.
    pub fn id(&self) -> u64
        ensures { result ≡ (fields self.now).digest_id }
    {
        self.digest_id
    }

    /// The salt. The standard asks for at least 16 bytes; any number is read.
    pub fn salt(&self) -> &'a [u8]
        ensures { result.now ≡ (fields self.now).random }
    {
        self.random
    }

    /// The element's identifier.
    pub fn name(&self) -> &'a str
        ensures { result.now ≡ (fields self.now).name }
    {
        self.name
    }

    /// The element's value.
    pub fn value(&self) -> View<'a>
        ensures { (part result).bytes ≡ (fields self.now).value }
    {
        self.value
    }
}
