//! A document that is asked for.

ghost use Rattle.std.specs.Prelude.{◌≡◌, option_map};
ghost use Rattle.cbor_view.specs.Pairs.{pairs_left};
ghost use Rattle.cbor_view.specs.View.{part};
ghost use Rattle.cbor_maps.specs.Reading.{encoded_in};
ghost use Rattle.doc_request.specs.Asked.{document, of_items_request};

use crate::elements::Elements;
use cbor_maps::NamedMap;
use cbor_view::{ENCODED, Pairs, View};
use mdoc_outside::KeyName;

/// A document that a reader asks for (DocRequest; ISO/IEC 18013-5, 8.3.2.1.2.1).
#[derive(Clone, Copy)]
pub struct DocAsk<'a> {
    pub(crate) doc_type: &'a str,
    pub(crate) items: &'a [u8],
    pub(crate) reader_auth: Option<View<'a>>,
    pub(crate) spaces: Pairs<'a>,
}

impl<'a> DocAsk<'a> {
    ghost use Rattle.doc_request.specs.Views.{document_seen, elements_left};

    /// The document of a map DocRequest, where the map has its form.
    pub(crate) fn read(request: &View<'a>) -> Option<DocAsk<'a>>
        ensures { option_map document_seen result ≡ document (part request.now) }
    {
        let map = NamedMap::new(request, &[KeyName::ItemsRequest, KeyName::ReaderAuth]);
        let Ok(tagged) = map.item(KeyName::ItemsRequest) else {
            return None;
        };
        let inside = encoded(&tagged)?;
        let Ok(items) = View::read(inside) else {
            return None;
        };
        let reader_auth = match map.optional_item(KeyName::ReaderAuth) {
            Ok(found) => found,
            Err(_) => None,
        };
        DocAsk::of_items_request(tagged.raw(), reader_auth, &items)
    }

    /// The same of the map ItemsRequest.
    fn of_items_request(
        items: &'a [u8],
        reader_auth: Option<View<'a>>,
        request: &View<'a>,
    ) -> Option<DocAsk<'a>>
        ensures { option_map document_seen result ≡ of_items_request items.now (option_map part reader_auth.entry) (part request.now) }
    {
        let map = NamedMap::new(request, &[KeyName::DocType, KeyName::NameSpaces]);
        let Ok(doc_type) = map.text(KeyName::DocType) else {
            return None;
        };
        let Ok(spaces) = map.map(KeyName::NameSpaces) else {
            return None;
        };
        let spaces = spaces.pairs()?;
        Some(DocAsk {
            doc_type,
            items,
            reader_auth,
            spaces,
        })
    }

    /// The document type.
    pub fn doc_type(&self) -> &'a str
        ensures { result.now ≡ (document_seen self.now).doc_type }
    {
        self.doc_type
    }

    /// The items request as it was received, with its tag (ItemsRequestBytes), which the reader signs
    /// (9.1.4.3).
    pub fn items(&self) -> &'a [u8]
        ensures { result.now ≡ (document_seen self.now).items }
    {
        self.items
    }

    /// The reader's authentication, where there is one (9.1.4).
    pub fn reader_auth(&self) -> Option<View<'a>>
        ensures { option_map part result ≡ (document_seen self.now).reader_auth }
    {
        self.reader_auth
    }

    /// The elements that are asked for, in the order of the bytes.
    pub fn elements(&self) -> Elements<'a>
        ensures { elements_left result ≡ (document_seen self.now).wishes }
    {
        let ns = "";
        let names = None;
        let spaces = self.spaces;
        Elements { ns, names, spaces }
    }
}

/// The string of bytes under tag 24.
fn encoded<'a>(item: &View<'a>) -> Option<&'a [u8]>
    ensures { option_map (λ b. b.now) result ≡ encoded_in (part item.now) }
{
    match item.tag() {
        Some((ENCODED, inner)) => inner.bytes(),
        _ => None,
    }
}
