// A wishes file.
ghost use Rattle.std.specs.Prelude.{IfOk};
ghost use Rattle.doc_request.specs.Draft.{IsRequest};
ghost use Rattle.mdoc_frame.specs.FileFault.{ReadsFile};
ghost use Rattle.mdoc_frame.specs.Wishes.{wishes_of};

use crate::FileFault;
use crate::reading::Reading;
use crate::wish_line::wish_line;
use doc_request::RequestDraft;
use mdoc_outside::{line_count, lines_of};
use std::alloc::Global;

/// The documents and elements that a wishes file asks for, else its first fault. It has groups of a line
/// `document TYPE` and one or more lines `want NAMESPACE ELEMENT RETAIN`.
#[tactic(auto, using(crate::proofs::RequestLemmas::wishes_request))]
pub fn read_wishes(alloc: Global, text: &[u8]) -> Result<RequestDraft, FileFault>
    ensures exact { ReadsFile (λ request. request.documents) result (wishes_of text.now) }
    ensures request { IfOk result (λ request. IsRequest request.documents) }
{
    let mut reading = Reading::new(alloc);
    for line in lines_of(text) {
        let words = line.word_list(alloc)?;
        let said = wish_line(alloc, &words)?;
        reading = reading.with_line(alloc, line.number(), said)?;
    }
    reading.finish(line_count(text).max(1))
}
