//! Sinks in memory, and standard output.

use mdoc_outside::{MemorySink, OutSink, Sink, SinkCall, SinkFault, SureSink};
use std::alloc::Global;

// Puts both pieces, and counts the puts that failed.
fn failures<S: Sink>(sink: &mut S, pieces: &[&[u8]]) -> u64 {
    let mut failed = 0u64;
    for piece in pieces {
        if sink.put(piece) == Err(SinkFault::Failed) {
            failed = failed.saturating_add(1);
        }
    }
    failed
}

// The puts of a sink, each with a bar after it; one that failed is in brackets.
fn shown_puts(alloc: Global, calls: &[SinkCall]) -> Option<Vec<u8>> {
    let mut shown = Vec::new(alloc);
    for call in calls {
        match call {
            SinkCall::Put(bytes) => shown.extend_from_slice(bytes.as_slice()).ok()?,
            SinkCall::PutFailed(bytes) => {
                shown.push(b'(').ok()?;
                shown.extend_from_slice(bytes.as_slice()).ok()?;
                shown.push(b')').ok()?;
            }
        }
        shown.push(b'|').ok()?;
    }
    Some(shown)
}

// Whether a sink of which three puts fail keeps the others.
fn keeps_what_was_put(alloc: Global) -> Option<bool> {
    let mut sink = MemorySink::new(alloc, vec![in alloc; 2, 0, 1].ok()?);
    let failed = failures(&mut sink, &[b"a", b"b", b"c", b"d", b"", b"ef"]);
    let bytes = sink.bytes().ok()?;
    let puts = shown_puts(alloc, sink.calls())?;
    let are_puts = puts.as_slice() == b"(a)|(b)|(c)|d||ef|".as_slice();
    Some(failed == 3 && bytes.as_slice() == b"def".as_slice() && are_puts)
}

// Whether a sink of which no put fails keeps all.
fn keeps_all(alloc: Global) -> Option<bool> {
    let mut sink = SureSink::new(alloc);
    let failed = failures(&mut sink, &[b"a", b"b"]);
    let bytes = sink.bytes().ok()?;
    let puts = shown_puts(alloc, sink.calls())?;
    Some(
        failed == 0
            && bytes.as_slice() == b"ab".as_slice()
            && puts.as_slice() == b"a|b|".as_slice(),
    )
}

#[test]
fn sinks_in_memory_keep_what_was_put(rt: HostRuntime) {
    assert!(rt; keeps_what_was_put(rt.alloc()) == Some(true));
    assert!(rt; keeps_all(rt.alloc()) == Some(true));
}

#[test]
fn standard_output_takes_bytes(rt: HostRuntime) {
    let mut out = OutSink::new(&rt);
    assert!(rt; failures(&mut out, &[b"core ", b"", b"a0\n"]) == 0);
}
