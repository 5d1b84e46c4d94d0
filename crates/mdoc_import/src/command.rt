// The command `import`: takes a package into the store.
ghost use Rattle.std.specs.Prelude.{◌≡◌, IfOk, List, Ok, Some, pos, true, ℕ};
ghost use Rattle.std.specs.Str.Parse.{digits_value};
ghost use Rattle.doc_store.specs.StoreView.{bytes_of_file};
ghost use Rattle.doc_store.specs.declared.laws.TheConstants.{EMPTY_STORE};
ghost use Rattle.key_device.specs.Gave.{Gave};
ghost use Rattle.key_device.specs.Recording.{inner, talk};
ghost use Rattle.key_device.specs.declared.exchange.Exchange.{Exchange};
ghost use Rattle.mdoc_frame.specs.Asking.{reader_sources};
ghost use Rattle.mdoc_import.specs.Import.{moment_of, store_of, import_asks, import_files, import_lines, import_of, import_outcome, import_row, import_status};
ghost use Rattle.mdoc_frame.specs.Content.{OfStore, store_file};
ghost use Rattle.mdoc_frame.specs.Number.{is_number};
ghost use Rattle.mdoc_frame.specs.Pairs.{is_in_form};
ghost use Rattle.mdoc_frame.specs.Outcome.{file_name_or_none, named_files};
ghost use Rattle.mdoc_frame.specs.Steps.{Does, Ends, ReadsFile};
ghost use Rattle.mdoc_frame.specs.World.{world};
ghost use Rattle.mdoc_frame.specs.declared.role.Role.TheVariants as roles;

use cert_view::Roots;
use doc_store::{EMPTY_STORE, StoreFault, StoreFile};
use key_device::{KeyDevice, Recorder};
use mdoc_frame::{Form, PackageFile, Status, print_lines, read_file, value_of};
use mdoc_outside::{
    Cabinet, CabinetFault, LimitName, MOST_FILE_BYTES, Memory, Octets, Rows, Sink, Word,
};
use mdoc_print::{package_lines, refusal_lines};
use package_import::{ImportFault, Imported, import_package};
use std::alloc::Global;

// The names of the package, of the roots and of the store.
#[derive(Clone, Copy)]
struct ImportNames<'a> {
    received: &'a str,
    roots: &'a str,
    store: &'a str,
}

// The names that the words give.
#[tactic(auto, using(crate::proofs::RowLemmas::import_names))]
fn names_of<'a>(words: &'a [Word]) -> ImportNames<'a>
    requires { is_in_form import_row words.now ≡ true }
    ensures files { named_files import_row words.now ≡ import_files result.received.now result.roots.now result.store.now }
    ensures store { store_of words.now ≡ result.store.now }
{
    let Some(received) = value_of("--package", words) else {
        unreachable!();
    };
    let Some(roots) = value_of("--roots", words) else {
        unreachable!();
    };
    let Some(store) = value_of("--store", words) else {
        unreachable!();
    };
    ImportNames {
        received,
        roots,
        store,
    }
}

// The moment that a word gives.
#[tactic(auto, using(mdoc_frame::proofs::NumberLemmas::moment_read))]
fn moment_in(word: &str) -> i64
    requires { is_number 0 253402300799 word.now ≡ true }
    ensures { result ≡ pos (digits_value 10 word.now) }
{
    match word.parse::<u64>() {
        Ok(number) => number as i64,
        Err(_) => unreachable!(),
    }
}

// The moment that the words give, or else the clock's.
#[tactic(auto, using(crate::proofs::RowLemmas::moment_is_number))]
fn moment_of(words: &[Word], clock: i64) -> i64
    requires { is_in_form import_row words.now ≡ true }
    ensures { result ≡ moment_of words.now clock }
{
    match value_of("--moment", words) {
        Some(word) => moment_in(word),
        None => clock,
    }
}

// The store with no document, in its shortest spelling.
fn empty_store(alloc: Global) -> Result<StoreFile, Memory>
    ensures { IfOk result (λ file. bytes_of_file file ≡ EMPTY_STORE) }
{
    let bytes = Octets::copy_of(alloc, &EMPTY_STORE)?;
    match StoreFile::read(alloc, bytes) {
        Ok(file) => Ok(file),
        Err(StoreFault::Form(_)) => unreachable!(),
        Err(StoreFault::Memory) => Err(Memory),
    }
}

// Reads the store of a name; one that is absent counts as the empty one.
fn read_store<C: Cabinet>(alloc: Global, name: &str, cabinet: &mut C) -> Result<StoreFile, Status>
    ensures { ReadsFile (file_name_or_none roles.Store name.now) (λ file. OfStore (store_file (bytes_of_file file)))
        (C.state cabinet.old) (C.state cabinet.new) result }
{
    let bytes = match cabinet.read(name) {
        Ok(Some(bytes)) => bytes,
        Ok(None) => {
            return match empty_store(alloc) {
                Ok(file) => Ok(file),
                Err(_) => Err(Status::Memory),
            };
        }
        Err(CabinetFault::Failed) => return Err(Status::Cabinet),
        Err(CabinetFault::Memory) => return Err(Status::Memory),
    };
    let length = bytes.as_slice().len();
    if length > MOST_FILE_BYTES {
        return Err(Status::Limit(LimitName::FileBytes, length as u64));
    }
    StoreFile::from_bytes(alloc, bytes)
}

// The status where nothing was imported, though no document is refused.
fn status_of(fault: ImportFault) -> Status
    ensures { result ≡ import_status fault }
{
    match fault {
        ImportFault::Device => Status::Device,
        ImportFault::Limit(limit, number) => Status::Limit(limit, number),
        ImportFault::Memory => Status::Memory,
    }
}

// The lines: one for each document, or for each that is refused.
fn lines_of(alloc: Global, imported: &Imported) -> Result<Rows<Octets>, Memory>
    ensures { IfOk result (λ lines. lines ≡ import_lines imported.now.merged imported.now.verdicts) }
{
    let verdicts = imported.verdicts.as_slice();
    match &imported.merged {
        Some(_) => package_lines(alloc, verdicts),
        None => refusal_lines(alloc, verdicts),
    }
}

// Writes the merged store, if there is one, and prints the lines.
fn finish<C: Cabinet, O: Sink>(
    store: &str,
    imported: &Imported,
    lines: &[Octets],
    cabinet: &mut C,
    out: &mut O,
) -> Status
    requires { lines.now ≡ import_lines imported.now.merged imported.now.verdicts }
    ensures { Ends (import_of store.now (Some (Ok imported.now)))
        (world (C.state cabinet.old) (O.state out.old)) (world (C.state cabinet.new) (O.state out.new)) result }
{
    let Some(merged) = &imported.merged else {
        return print_lines(lines, Status::Verdict, out);
    };
    match cabinet.write(store, merged.as_slice()) {
        Ok(()) => {}
        Err(CabinetFault::Failed) => return Status::Cabinet,
        Err(CabinetFault::Memory) => return Status::Memory,
    }
    print_lines(lines, Status::Done, out)
}

// Opens the files, imports, writes the merged store, and prints the lines.
fn import_named<C: Cabinet, E: KeyDevice, O: Sink>(
    alloc: Global,
    names: ImportNames<'_>,
    moment: i64,
    cabinet: &mut C,
    device: &mut Recorder<E>,
    out: &mut O,
) -> Status
    ensures does { (wallet : List Exchange) (words : List ℕ) (wallet_faults dice_faults : ℕ) →
        Does (import_files names.entry.received.now names.entry.roots.now names.entry.store.now) (import_outcome names.entry.store.now moment) (import_asks moment)
        (reader_sources wallet words wallet_faults dice_faults E.faults device.old) (reader_sources wallet words wallet_faults dice_faults E.faults device.new)
        (world (C.state cabinet.old) (O.state out.old)) (world (C.state cabinet.new) (O.state out.new)) result }
    ensures gave { Gave E.gives E.unasked E.faults device.old device.new }
{
    let received: PackageFile = match read_file(alloc, names.received, cabinet) {
        Ok(received) => received,
        Err(status) => return status,
    };
    let roots: Roots = match read_file(alloc, names.roots, cabinet) {
        Ok(roots) => roots,
        Err(status) => return status,
    };
    let own = match read_store(alloc, names.store, cabinet) {
        Ok(own) => own,
        Err(status) => return status,
    };
    let imported = match import_package(
        alloc,
        &own.store(),
        &received.file.store(),
        &roots,
        moment,
        device,
    ) {
        Ok(imported) => imported,
        Err(fault) => return status_of(fault),
    };
    let Ok(lines) = lines_of(alloc, &imported) else {
        return Status::Memory;
    };
    finish(names.store, &imported, lines.as_slice(), cabinet, out)
}

/// Does what `import` does with words in its form: the reader's device is asked.
pub fn import<C: Cabinet, E: KeyDevice, O: Sink>(
    alloc: Global,
    words: &[Word],
    clock: i64,
    cabinet: &mut C,
    device: &mut Recorder<E>,
    out: &mut O,
) -> Status
    requires { is_in_form import_row words.now ≡ true }
    ensures does { (wallet : List Exchange) (drawn : List ℕ) (wallet_faults dice_faults : ℕ) →
        Does (named_files import_row words.now) (import_outcome (store_of words.now) (moment_of words.now clock)) (import_asks (moment_of words.now clock))
        (reader_sources wallet drawn wallet_faults dice_faults E.faults device.old) (reader_sources wallet drawn wallet_faults dice_faults E.faults device.new)
        (world (C.state cabinet.old) (O.state out.old)) (world (C.state cabinet.new) (O.state out.new)) result }
    ensures gave { Gave E.gives E.unasked E.faults device.old device.new }
{
    import_named(
        alloc,
        names_of(words),
        moment_of(words, clock),
        cabinet,
        device,
        out,
    )
}
