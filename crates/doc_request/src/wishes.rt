//! The wishes of a request.

ghost use Rattle.std.specs.Prelude.{◌≡◌, ◌+◌, ◌<◌, ◌^◌, length, [], ◌∷◌, MatchOption};
ghost use Rattle.std.specs.Iterator.{YieldsFirstBy, item_count};
ghost use Rattle.doc_request.specs.Views.{begun_left, documents_left, element_seen, elements_left};

use crate::Documents;
use crate::element::Element;
use crate::elements::Elements;
use consent::Wish;

/// The wishes of a request, each with the place of its document, from 0, in the order of the bytes.
#[derive(Clone, Copy)]
pub struct Wishes<'a> {
    pub(crate) place: usize,
    pub(crate) doc_type: &'a str,
    pub(crate) elements: Option<Elements<'a>>,
    pub(crate) next_place: usize,
    pub(crate) documents: Documents<'a>,
    ghost in_range: { next_place + length (documents_left documents) < 2 ^ 64 },
}

impl<'a> Iterator for Wishes<'a> {
    ghost use Rattle.doc_request.specs.WishesView.{place_and_wish, wishes_left};

    type Item = (usize, Wish<'a>);

    ghost next_gives = { YieldsFirstBy place_and_wish wishes_left };

    ghost remaining = { item_count wishes_left };

    fn next(&mut self) -> Option<(usize, Wish<'a>)> {
        let mut place = self.place;
        let mut doc_type = self.doc_type;
        let mut elements = self.elements;
        let mut next_place = self.next_place;
        let mut documents = self.documents;
        'documents: loop {
            match first_of(elements) {
                Some((element, rest)) => {
                    let elements = Some(rest);
                    *self = Wishes {
                        place,
                        doc_type,
                        elements,
                        next_place,
                        documents,
                    };
                    return Some((place, wish_of(doc_type, &element)));
                }
                None => {}
            }
            match documents.next() {
                Some(document) => {
                    place = next_place;
                    doc_type = document.doc_type();
                    elements = Some(document.elements());
                    next_place += 1;
                }
                None => {
                    let elements = None;
                    *self = Wishes {
                        place,
                        doc_type,
                        elements,
                        next_place,
                        documents,
                    };
                    return None;
                }
            }
        }
    }
}

/// The first element, and those after it.
fn first_of<'a>(elements: Option<Elements<'a>>) -> Option<(Element<'a>, Elements<'a>)>
    ensures { MatchOption result (begun_left elements.entry ≡ [])
        (λ r. begun_left elements.entry ≡ element_seen r.0 ∷ elements_left r.1) }
{
    let mut elements = elements?;
    let first = elements.next()?;
    Some((first, elements))
}

/// The wish for an element of a document.
fn wish_of<'a>(doc_type: &'a str, element: &Element<'a>) -> Wish<'a>
    ensures doc_type { result.doc_type.now ≡ doc_type.now }
    ensures ns { result.ns.now ≡ element.now.ns.now }
    ensures name { result.name.now ≡ element.now.name.now }
    ensures retain { result.retain ≡ element.now.retain }
{
    Wish {
        doc_type,
        ns: element.ns,
        name: element.name,
        retain: element.retain,
    }
}
