// The command `draft`: prints the core of what the holder's rules release.
ghost use Rattle.std.specs.Prelude.{◌≡◌, true, IfOk};
ghost use Rattle.doc_store.specs.StoreView.{documents_of_file};
ghost use Rattle.doc_request.specs.Draft.{IsRequest};
ghost use Rattle.mdoc_draft.specs.Draft.{draft_files, draft_line, draft_outcome, draft_row};
ghost use Rattle.mdoc_frame.specs.Outcome.{named_files};
ghost use Rattle.mdoc_frame.specs.Pairs.{is_in_form};
ghost use Rattle.mdoc_frame.specs.Steps.{Ends, Opens};
ghost use Rattle.mdoc_frame.specs.World.{world};

use crate::answering::answer_all;
use crate::response_writer::write_core;
use consent::Rules;
use doc_request::RequestDraft;
use doc_store::StoreFile;
use mdoc_frame::{Status, print_lines, read_file, value_of};
use mdoc_outside::{Cabinet, Memory, Octets, Sink, Word};
use std::alloc::Global;

// The names of the files that `draft` reads.
#[derive(Clone, Copy)]
struct DraftFiles<'a> {
    store: &'a str,
    wishes: &'a str,
    rules: &'a str,
}

// The files that the words name.
#[tactic(auto, using(crate::proofs::RowLemmas::draft_files_named))]
fn files_of<'a>(words: &'a [Word]) -> DraftFiles<'a>
    requires { is_in_form draft_row words.now ≡ true }
    ensures { named_files draft_row words.now
        ≡ draft_files result.store.now result.wishes.now result.rules.now }
{
    let Some(store) = value_of("--store", words) else {
        unreachable!();
    };
    let Some(wishes) = value_of("--wishes", words) else {
        unreachable!();
    };
    let Some(rules) = value_of("--rules", words) else {
        unreachable!();
    };
    DraftFiles {
        store,
        wishes,
        rules,
    }
}

// The line that `draft` prints: the core of what the rules release to an unknown reader.
fn line_of(
    alloc: Global,
    file: &StoreFile,
    request: &RequestDraft,
    rules: &Rules,
) -> Result<Octets, Memory>
    requires { IsRequest request.now.documents }
    ensures { IfOk result (λ line. line ≡ draft_line (documents_of_file file.now) request.now.documents rules.now) }
{
    let store = file.store();
    let documents = answer_all(alloc, &store, request.documents.as_slice(), rules)?;
    let core = write_core(alloc, &documents)?;
    let digits = hex::encode(alloc, core.as_slice())?;
    let mut line = b"core ".to_vec(alloc)?;
    line.extend_from_slice(digits.as_bytes())?;
    line.push(b'\n')?;
    Ok(Octets::from_vec(line))
}

// Opens the files, one by one, and prints the line.
fn draft_files<C: Cabinet, O: Sink>(
    alloc: Global,
    files: DraftFiles<'_>,
    cabinet: &mut C,
    out: &mut O,
) -> Status
    ensures { Opens (draft_files files.entry.store.now files.entry.wishes.now files.entry.rules.now) (λ contents. Ends (draft_outcome contents)) (Unit {0})
        (world (C.state cabinet.old) (O.state out.old)) (world (C.state cabinet.new) (O.state out.new)) result }
{
    let store: StoreFile = match read_file(alloc, files.store, cabinet) {
        Ok(store) => store,
        Err(status) => return status,
    };
    let request: RequestDraft = match read_file(alloc, files.wishes, cabinet) {
        Ok(request) => request,
        Err(status) => return status,
    };
    let rules: Rules = match read_file(alloc, files.rules, cabinet) {
        Ok(rules) => rules,
        Err(status) => return status,
    };
    let Ok(line) = line_of(alloc, &store, &request, &rules) else {
        return Status::Memory;
    };
    print_lines(&[line], Status::Done, out)
}

/// Does what `draft` does with words in its form.
pub fn draft<C: Cabinet, O: Sink>(
    alloc: Global,
    words: &[Word],
    cabinet: &mut C,
    out: &mut O,
) -> Status
    requires { is_in_form draft_row words.now ≡ true }
    ensures { Opens (named_files draft_row words.now) (λ contents. Ends (draft_outcome contents)) (Unit {0})
        (world (C.state cabinet.old) (O.state out.old)) (world (C.state cabinet.new) (O.state out.new)) result }
{
    draft_files(alloc, files_of(words), cabinet, out)
}
