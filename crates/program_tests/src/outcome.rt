// One run over objects in memory.
use key_device::{Recorder, ToyDevice};
use mdoc_outside::{
    CabinetCall, CountDice, Dealt, MemoryCabinet, MemorySink, Octets, SinkCall, Word,
};
use mdoc_program::run;
use std::alloc::Global;
use std::test::Fail;

/// A name and the bytes of its file.
pub type Named<'a> = (&'a str, &'a [u8]);

// The calls of a cabinet, one space between two of them.
fn shown_calls(alloc: Global, calls: &[CabinetCall]) -> Result<Vec<u8>, Fail> {
    let mut shown = Vec::new(alloc);
    for call in calls {
        let (letter, name) = match call {
            CabinetCall::Read(name, _) => (b'r', name),
            CabinetCall::ReadFailed(name) => (b'R', name),
            CabinetCall::Write(name, _) => (b'w', name),
            CabinetCall::WriteFailed(name, _) => (b'W', name),
        };
        if !shown.is_empty() {
            shown.push(b' ')?;
        }
        shown.push(letter)?;
        shown.extend_from_slice(name.as_slice())?;
    }
    Ok(shown)
}

// The puts of a sink.
fn shown_puts(alloc: Global, calls: &[SinkCall]) -> Result<Vec<u8>, Fail> {
    let mut shown = Vec::new(alloc);
    for call in calls {
        match call {
            SinkCall::Put(bytes) => {
                shown.extend_from_slice(bytes.as_slice())?;
                shown.push(b'|')?;
            }
            SinkCall::PutFailed(_) => shown.push(b'!')?,
        }
    }
    Ok(shown)
}

// The words of a run, one space between two of them.
fn words_of(alloc: Global, words: &str) -> Result<Vec<Word>, Fail> {
    let mut list = Vec::new(alloc);
    for word in words.split(' ') {
        if !word.is_empty() {
            list.push(Word::copy_of(alloc, word)?)?;
        }
    }
    Ok(list)
}

// A cabinet that holds these files, of which the calls with these numbers fail.
fn cabinet_of(alloc: Global, files: &[Named<'_>], fails: &[u64]) -> Result<MemoryCabinet, Fail> {
    let mut held = Vec::new(alloc);
    for (name, bytes) in files {
        let name = Octets::copy_of(alloc, name.as_bytes())?;
        held.push((name, Octets::copy_of(alloc, bytes)?))?;
    }
    Ok(MemoryCabinet::new(alloc, held, fails.to_vec(alloc)?))
}

// Runs the words, and says whether that ends with this status line.
fn ends_with(
    alloc: Global,
    words: &str,
    cabinet: &mut MemoryCabinet,
    sink: &mut MemorySink,
    status: &str,
) -> Result<bool, Fail> {
    let words = words_of(alloc, words)?;
    let mut holder = Recorder::new(alloc, ToyDevice::new(1, 1, 5));
    let mut issuer = Recorder::new(alloc, ToyDevice::new(1, 2, u32::MAX - 1));
    let mut dice = Dealt::new(alloc, CountDice::new(u64::MAX - 2));
    let told = run(
        alloc,
        &words,
        0,
        cabinet,
        &mut holder,
        &mut issuer,
        &mut dice,
        sink,
    );
    Ok(told.to_string(alloc)?.as_str() == status)
}

/// The numbers of the calls that fail, of a cabinet and of a sink.
pub type Fails<'a> = (&'a [u64], &'a [u64]);

/// Whether a run of the words over these files, with these calls failing, ends with that status line and prints those
/// bytes.
pub fn comes_to(
    alloc: Global,
    words: &str,
    files: &[Named<'_>],
    fails: Fails<'_>,
    status: &str,
    printed: &[u8],
) -> Result<bool, Fail> {
    let mut cabinet = cabinet_of(alloc, files, fails.0)?;
    let mut sink = MemorySink::new(alloc, fails.1.to_vec(alloc)?);
    let is_end = ends_with(alloc, words, &mut cabinet, &mut sink, status)?;
    Ok(is_end && sink.bytes()?.as_slice() == printed)
}

/// Whether such a run ends with that status line after these calls: each call of the cabinet as a letter (`r` for a
/// read, `w` for a write, in upper case where it failed) before the file's name, and each put as a bar after its bytes,
/// or `!` where it failed.
pub fn calls(
    alloc: Global,
    words: &str,
    files: &[Named<'_>],
    fails: Fails<'_>,
    status: &str,
    shown: (&str, &str),
) -> Result<bool, Fail> {
    let mut cabinet = cabinet_of(alloc, files, fails.0)?;
    let mut sink = MemorySink::new(alloc, fails.1.to_vec(alloc)?);
    let is_end = ends_with(alloc, words, &mut cabinet, &mut sink, status)?;
    Ok(
        is_end
            && shown_calls(alloc, cabinet.calls())?.as_slice() == shown.0.as_bytes()
            && shown_puts(alloc, sink.calls())?.as_slice() == shown.1.as_bytes(),
    )
}
