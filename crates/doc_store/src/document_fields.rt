//! The fields of a document and of the file of documents.

ghost use Rattle.std.specs.Prelude.{◌≡◌, option_map};
ghost use Rattle.cbor_view.specs.Items.{left};
ghost use Rattle.cbor_view.specs.View.{part};
ghost use Rattle.cbor_maps.specs.NamedMap.{whole_map};
ghost use Rattle.doc_store.specs.DocumentFields.{doc_type_in, uses_mac_in, copies_in, documents_in};
ghost use Rattle.doc_store.specs.Store.{is_mac};

use crate::parts::{items_within, read_name};
use cbor_maps::NamedMap;
use cbor_view::{Items, View};
use mdoc_outside::{KeyName, MOST_COPIES, MOST_DOCUMENTS};

/// The documents of the file.
pub(crate) fn read_documents<'a>(file: &View<'a>) -> Option<Items<'a>>
    ensures { option_map left result ≡ documents_in (part file.now) }
{
    let map = NamedMap::new(file, &[KeyName::Version, KeyName::Documents]);
    items_within(map.items(KeyName::Documents).ok()?, 0, MOST_DOCUMENTS)
}

/// The map of a document, by its keys.
fn map_of<'a>(stored: &View<'a>) -> NamedMap<'a>
    ensures { whole_map result ≡ part stored.now }
{
    NamedMap::new(stored, &[KeyName::DocType, KeyName::Auth, KeyName::Copies])
}

/// The document type.
#[tactic(auto, using(crate::proofs::KeyLaw::field_of_any))]
pub(crate) fn read_doc_type<'a>(stored: &View<'a>) -> Option<&'a str>
    ensures { option_map (λ t. t.now) result ≡ doc_type_in (part stored.now) }
{
    read_name(&map_of(stored).item(KeyName::DocType).ok()?)
}

/// Whether device authentication is by a MAC.
pub(crate) fn read_uses_mac(stored: &View<'_>) -> Option<bool>
    ensures { result ≡ uses_mac_in (part stored.now) }
{
    mac_of(map_of(stored).uint(KeyName::Auth).ok()?)
}

fn mac_of(auth: u64) -> Option<bool>
    ensures { result ≡ is_mac auth }
{
    match auth {
        0 => Some(false),
        1 => Some(true),
        _ => None,
    }
}

/// The copies of a document.
pub(crate) fn read_copies<'a>(stored: &View<'a>) -> Option<Items<'a>>
    ensures { option_map left result ≡ copies_in (part stored.now) }
{
    items_within(map_of(stored).items(KeyName::Copies).ok()?, 1, MOST_COPIES)
}
