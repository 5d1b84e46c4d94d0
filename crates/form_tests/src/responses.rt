// Worked rows of responses.
use cbor_view::View;
use doc_response::{Response, ResponseDraft, respond};
use std::alloc::Global;

/// Statuses, and the response that has the status alone.
const STATUSES: [(u64, &[u8]); 3] = [
    (10, b"\xa2\x67version\x63\x31.0\x66status\x0a"),
    (11, b"\xa2\x67version\x63\x31.0\x66status\x0b"),
    (12, b"\xa2\x67version\x63\x31.0\x66status\x0c"),
];

/// {"version": "1.0", "documentErrors": [{"a": 0}], "status": 0}
const NOTHING: &[u8] =
    b"\xa3\x67version\x63\x31.0\x6edocumentErrors\x81\xa1\x61a\x00\x66status\x00";

/// Whether a response of that status, of which nothing is returned, has those bytes.
fn is_written(alloc: Global, status: u64, bytes: &[u8]) -> Option<bool> {
    let mut draft = ResponseDraft::new(alloc, status);
    draft.nothing("a").ok()?;
    Some(respond(alloc, &draft).ok()?.as_slice() == bytes)
}

/// Whether bytes are read as that status alone.
fn is_status_alone(bytes: &[u8], status: u64) -> Option<bool> {
    let response = Response::read(View::read(bytes).ok()?).ok()?;
    Some(
        response.status() == status
            && response.documents().next().is_none()
            && response.errors().next().is_none(),
    )
}

#[test]
fn statuses_alone(rt: HostRuntime) {
    for (status, bytes) in &STATUSES {
        assert!(rt;
            is_written(rt.alloc(), *status, bytes) == Some(true),
            "{status}"
        );
        assert!(rt; is_status_alone(bytes, *status) == Some(true), "{status}");
    }
}

#[test]
fn nothing_returned(rt: HostRuntime) {
    assert!(rt; is_written(rt.alloc(), 0, NOTHING) == Some(true));
}
