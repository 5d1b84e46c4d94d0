//! An item among the stored items of a copy.

ghost use Rattle.std.specs.Prelude.{◌≡◌, true, is_some, find, option_map};
ghost use Rattle.cbor_view.specs.Label.{is_words};
ghost use Rattle.cbor_view.specs.Parts.{text_in};
ghost use Rattle.cbor_view.specs.View.{part};
ghost use Rattle.doc_store.specs.HeldItem.{is_raw, raws_in, no_space, held_by};
ghost use Rattle.doc_store.specs.Parts.{value_or};
ghost use Rattle.doc_store.specs.Store.{namespace};

use cbor_view::View;
use issuer_items::Item;

/// The item of that namespace and name in a namespace of a copy, as it is stored.
#[tactic(auto, using(crate::proofs::HeldItems::held_here))]
pub(crate) fn find_in_space<'a>(
    space: &View<'a>,
    items: &View<'a>,
    ns: &str,
    name: &str,
) -> Option<&'a [u8]>
    requires { is_some (namespace (part space.now, part items.now)) ≡ true }
    ensures { option_map (λ b. b.now) result
        ≡ held_by ns.now name.now (value_or no_space namespace (part space.now, part items.now)) }
{
    if is_text(space, ns) {
        find_named(items, name)
    } else {
        None
    }
}

fn is_text(value: &View<'_>, text: &str) -> bool
    ensures { result ≡ is_words text.now (text_in (part value.now)) }
{
    match value.text() {
        Some(own) => own == text,
        None => false,
    }
}

fn find_named<'a>(list: &View<'a>, name: &str) -> Option<&'a [u8]>
    ensures { option_map (λ b. b.now) result ≡ find (is_raw name.now) (raws_in (part list.now)) }
{
    let items = list.items()?;
    for stored in items {
        if is_named(&stored, name) {
            return Some(stored.raw());
        }
    }
    None
}

#[tactic(auto, unfolding(crate::specs::Item::item))]
fn is_named(stored: &View<'_>, name: &str) -> bool
    ensures { result ≡ is_raw name.now (part stored.now).bytes }
{
    match Item::read(stored.raw()) {
        Ok(item) => item.name() == name,
        Err(_) => false,
    }
}
