//! Cabinets in memory and in a folder.

use mdoc_outside::{
    Cabinet, CabinetCall, CabinetFault, FolderCabinet, MemoryCabinet, Octets, SureCabinet,
};
use std::alloc::Global;
use std::process::Abort;

// What a fault is shown as: `!` for a failure and `?` for want of memory.
fn shown_fault(fault: CabinetFault) -> &'static str {
    match fault {
        CabinetFault::Failed => "!",
        CabinetFault::Memory => "?",
    }
}

// What a read answers: the bytes in hexadecimal digits, `-` for no such file, or the fault.
fn read<C: Cabinet>(alloc: Global, cabinet: &mut C, name: &str) -> Option<String> {
    match cabinet.read(name) {
        Ok(Some(bytes)) => hex::encode(alloc, bytes.as_slice()).ok(),
        Ok(None) => String::from_str(alloc, "-").ok(),
        Err(fault) => String::from_str(alloc, shown_fault(fault)).ok(),
    }
}

// What a write answers: `=`, or the fault.
fn write<C: Cabinet>(alloc: Global, cabinet: &mut C, name: &str, digits: &str) -> Option<String> {
    let bytes = hex::decode(alloc, digits.as_bytes()).ok()?;
    match cabinet.write(name, &bytes) {
        Ok(()) => String::from_str(alloc, "=").ok(),
        Err(fault) => String::from_str(alloc, shown_fault(fault)).ok(),
    }
}

// Whether a cabinet answers a step as it says: a name, for a write the sign `=` and bytes in hexadecimal digits, a colon,
// and the answer.
fn answers<C: Cabinet>(alloc: Global, cabinet: &mut C, step: &str) -> Option<bool> {
    let (call, wanted) = step.split_once(':')?;
    let found = match call.split_once('=') {
        Some((name, digits)) => write(alloc, cabinet, name, digits)?,
        None => read(alloc, cabinet, call)?,
    };
    Some(found.as_str() == wanted)
}

// Whether a cabinet answers each step so, a bar between two of them.
fn answers_all<C: Cabinet>(alloc: Global, cabinet: &mut C, steps: &str) -> Option<bool> {
    for step in steps.split('|') {
        if !answers(alloc, cabinet, step)? {
            return Some(false);
        }
    }
    Some(true)
}

// The calls of a cabinet, each as a letter (`r` and `w`, in upper case where it failed), the name, what was found or
// written, as above, and a bar.
fn shown_calls(alloc: Global, calls: &[CabinetCall]) -> Option<Vec<u8>> {
    let mut shown = Vec::new(alloc);
    for call in calls {
        let (letter, name, bytes): (u8, &[u8], &[u8]) = match call {
            CabinetCall::Read(name, Some(bytes)) => (b'r', name.as_slice(), bytes.as_slice()),
            CabinetCall::Read(name, None) => (b'r', name.as_slice(), b"-"),
            CabinetCall::ReadFailed(name) => (b'R', name.as_slice(), b""),
            CabinetCall::Write(name, bytes) => (b'w', name.as_slice(), bytes.as_slice()),
            CabinetCall::WriteFailed(name, bytes) => (b'W', name.as_slice(), bytes.as_slice()),
        };
        shown.push(letter).ok()?;
        shown.extend_from_slice(name).ok()?;
        shown.push(b' ').ok()?;
        shown.extend_from_slice(bytes).ok()?;
        shown.push(b'|').ok()?;
    }
    Some(shown)
}

// The pair of a name and its bytes.
fn file(alloc: Global, name: &[u8], bytes: &[u8]) -> Option<(Octets, Octets)> {
    let name = Octets::copy_of(alloc, name).ok()?;
    Some((name, Octets::copy_of(alloc, bytes).ok()?))
}

fn two_files(alloc: Global) -> Option<Vec<(Octets, Octets)>> {
    let mut files = Vec::new(alloc);
    files.push(file(alloc, b"a", b"1")?).ok()?;
    files.push(file(alloc, b"ab", b"")?).ok()?;
    Some(files)
}

// A cabinet of two files, of which the first three calls fail.
fn memory_cabinet(alloc: Global) -> Option<MemoryCabinet> {
    let files = two_files(alloc)?;
    let fails = vec![in alloc; 0, 1, 2].ok()?;
    Some(MemoryCabinet::new(alloc, files, fails))
}

// Whether it answers so, and keeps these calls.
fn memory_answers(alloc: Global) -> Option<bool> {
    let mut cabinet = memory_cabinet(alloc)?;
    let steps = "a:!|b=32:!|b:!|b:-|a:31|ab:|a=33:=|a:33|ab:";
    let are_answered = answers_all(alloc, &mut cabinet, steps)?;
    let calls = shown_calls(alloc, cabinet.calls())?;
    let wanted = b"Ra |Wb 2|Rb |rb -|ra 1|rab |wa 3|ra 3|rab |".as_slice();
    Some(are_answered && calls.as_slice() == wanted)
}

// The same of an empty cabinet of which no call fails.
fn sure_answers(alloc: Global) -> Option<bool> {
    let mut sure = SureCabinet::new(alloc, Vec::new(alloc));
    let are_answered = answers_all(alloc, &mut sure, "a:-|a=34:=|b=35:=|a:34")?;
    let calls = shown_calls(alloc, sure.calls())?;
    Some(are_answered && calls.as_slice() == b"ra -|wa 4|wb 5|ra 4|".as_slice())
}

#[test]
fn cabinets_in_memory_read_what_was_written(rt: HostRuntime) {
    assert!(rt; memory_answers(rt.alloc()) == Some(true));
    assert!(rt; sure_answers(rt.alloc()) == Some(true));
}

#[test]
fn the_folder_keeps_files(rt: HostRuntime) {
    let mut folder = FolderCabinet::new(&rt);
    let steps = "no such file:-|a.bin=00ff:=|a.bin=01:=|a.bin:01|.:!|no/such/folder=:!";
    assert!(rt; answers_all(rt.alloc(), &mut folder, steps) == Some(true));
}
