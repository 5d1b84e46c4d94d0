// A wishes file that is being read, line by line.
ghost use Rattle.std.specs.Prelude.{◌≡◌, ◌+◌, ◌≤◌, List, IfOk};
ghost use Rattle.std.specs.List.{list_any};
ghost use Rattle.doc_request.specs.Draft.{wish_count, is_same_element};
ghost use Rattle.mdoc_frame.specs.FileFault.{ReadsFile};
ghost use Rattle.mdoc_frame.specs.OpenDocument.{open_count};
ghost use Rattle.mdoc_frame.specs.Wishes.{Progress, at_start, complete_documents, documents_at_end, refusal, with_document, with_want, with_line};

use crate::FileFault;
use crate::open_document::OpenDocument;
use crate::wish_line::WishLine;
use doc_request::{DocDraft, RequestDraft, WishDraft};
use mdoc_outside::{LimitName, MOST_DOCUMENTS, MOST_WISHES, MOST_WISHES_OF_DOCUMENT, Octets, Rows};
use std::alloc::Global;

// How far a wishes file was read: the documents that are complete, the one that is being read, and the
// number of all wishes so far.
#[derive(Drop)]
pub(crate) struct Reading {
    pub(crate) complete: Vec<DocDraft>,
    pub(crate) current: Option<OpenDocument>,
    pub(crate) count: usize,
    ghost counts: { count ≡ wish_count complete.items + open_count current },
    ghost in_range: { count ≤ 2048 },
}

// Whether two wishes are for one element.
fn is_same_element(a: &WishDraft, b: &WishDraft) -> bool
    ensures { result ≡ is_same_element a.now b.now }
{
    a.ns.as_slice() == b.ns.as_slice() && a.name.as_slice() == b.name.as_slice()
}

// Whether one of the wishes is for the same element.
fn holds_element(wishes: &[WishDraft], wish: &WishDraft) -> bool
    ensures { result ≡ list_any (is_same_element wish.now) wishes.now }
{
    wishes.iter().any(|other| is_same_element(wish, other))
}

// What is wrong with one more wish of a document, `count` being the number of all wishes so far.
fn refusal(number: u64, wish: &WishDraft, wishes: &[WishDraft], count: usize) -> Option<FileFault>
    ensures { result ≡ refusal number wish.now wishes.now count }
{
    if holds_element(wishes, wish) {
        Some(FileFault::Line(number))
    } else if wishes.len() >= MOST_WISHES_OF_DOCUMENT {
        Some(FileFault::Limit(LimitName::Wishes, MOST_WISHES_OF_DOCUMENT as u64 + 1))
    } else if count >= MOST_WISHES {
        Some(FileFault::Limit(LimitName::Wishes, MOST_WISHES as u64 + 1))
    } else {
        None
    }
}

impl Reading {
    ghost use Rattle.mdoc_frame.specs.Progress.{progress};

    pub(crate) fn new(alloc: Global) -> Reading
        ensures { progress result ≡ at_start }
    {
        Reading {
            complete: Vec::new(alloc),
            current: None,
            count: 0,
        }
    }

    // The documents with the number of their wishes, once the one that is being read is complete.
    fn complete_documents(self, number: u64) -> Result<(Vec<DocDraft>, usize), FileFault>
        ensures documents { ReadsFile (λ read. read.0.items) result (complete_documents number (progress self)) }
        ensures count { IfOk result (λ read. read.1 ≡ wish_count read.0.items) }
        ensures in_range { IfOk result (λ read. read.1 ≤ 2048) }
    {
        let Reading {
            mut complete,
            current,
            count,
        } = self;
        match current {
            None => Ok((complete, count)),
            Some(OpenDocument { doc_type, wishes }) => {
                if wishes.is_empty() {
                    return Err(FileFault::Line(number));
                }
                let wishes = Rows::from_vec(wishes);
                complete.push(DocDraft { doc_type, wishes })?;
                Ok((complete, count))
            }
        }
    }

    // With one more line, which begins a document.
    fn with_document(
        self,
        alloc: Global,
        number: u64,
        doc_type: Octets,
    ) -> Result<Reading, FileFault>
        ensures { ReadsFile progress result (with_document number doc_type (progress self)) }
    {
        let (complete, count) = self.complete_documents(number)?;
        if complete.len() >= MOST_DOCUMENTS {
            return Err(FileFault::Limit(LimitName::Documents, MOST_DOCUMENTS as u64 + 1));
        }
        let wishes = Vec::new(alloc);
        Ok(Reading {
            complete,
            current: Some(OpenDocument { doc_type, wishes }),
            count,
        })
    }

    // With one more line, which wants an element of the document that is being read.
    #[tactic(auto, using(crate::proofs::FileFaults::is_file_fault))]
    fn with_want(self, number: u64, wish: WishDraft) -> Result<Reading, FileFault>
        ensures { ReadsFile progress result (with_want number wish (progress self)) }
    {
        let Reading {
            complete,
            current,
            count,
        } = self;
        let Some(
            OpenDocument {
                doc_type,
                mut wishes,
            },
        ) = current
        else {
            return Err(FileFault::Line(number));
        };
        if let Some(fault) = refusal(number, &wish, &wishes, count) {
            return Err(fault);
        }
        wishes.push(wish)?;
        Ok(Reading {
            complete,
            current: Some(OpenDocument { doc_type, wishes }),
            count: count + 1,
        })
    }

    // With one more line, by what it says.
    pub(crate) fn with_line(
        self,
        alloc: Global,
        number: u64,
        said: Option<WishLine>,
    ) -> Result<Reading, FileFault>
        ensures { ReadsFile progress result (with_line number said (progress self)) }
    {
        match said {
            None => Err(FileFault::Line(number)),
            Some(WishLine::Document(doc_type)) => self.with_document(alloc, number, doc_type),
            Some(WishLine::Want(wish)) => self.with_want(number, wish),
        }
    }

    // The request, where the file ends here, `last` being the number of its last line.
    pub(crate) fn finish(self, last: u64) -> Result<RequestDraft, FileFault>
        ensures { ReadsFile (λ request. request.documents) result (documents_at_end last (progress self)) }
    {
        let (documents, _) = self.complete_documents(last)?;
        if documents.is_empty() {
            return Err(FileFault::Line(last));
        }
        let documents = Rows::from_vec(documents);
        Ok(RequestDraft { documents })
    }
}
