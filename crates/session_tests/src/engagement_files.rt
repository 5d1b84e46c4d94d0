// Engagement files: what stands before and after the text of the QR code, and the line that breaks the form.
use crate::engagements::QUIET;
use engagement::{EngagementFileFault, read_engagement};
use std::alloc::Global;

// The text of an engagement, its base64url by Python.
const TEXT: &[u8] =
    b"mdoc:ogBjMS4wAYIB2BhYS6QBAiABIVggAAAAAAAAAAAAAAAAAAAAAAAAAAAAAAAAAAAAAAAAAAAiWCABAQEBAQEBAQEBAQEBAQEBAQEBAQEBAQEBAQEBAQEBAQ";

// What stands before the text and after it, and the bad line; 0 where there is none.
const FILES: &[(&[u8], &[u8], u64)] = &[
    (b"qr ", b"", 0),
    (b"qr ", b"\n", 0),
    (b"# shown at the gate\r\n\r\n  qr   ", b"  \r\n\n# end", 0),
    (b"", b"\n", 1),
    (b"QR ", b"\n", 1),
    (b"qr  x ", b"\n", 1),
    (b"qr ", b" x\n", 1),
    (b"qr ", b"A\n", 1),
    (b"qr ", b"=\n", 1),
    (b"qr ", b"\x00\n", 1),
    (b"\n\nqr x\nqr ", b"\n", 3),
    (b"#\nqr ", b"\n#\nqr x\n", 4),
    (b"qr ", b"\nx", 2),
    (b"# ", b"\n", 1),
    (b"# ", b"\n\n\n", 3),
    (b"qr mdoc:\nqr ", b"\n", 1),
    (b"qr mdoc:oQBjMS4w\n# ", b"\n", 1),
];

// Whether the file is read as wanted.
fn is_read_as(alloc: Global, before: &[u8], after: &[u8], wanted: u64) -> bool {
    let Ok(mut file) = before.to_vec(alloc) else {
        return false;
    };
    if file.extend_from_slice(TEXT).is_err() || file.extend_from_slice(after).is_err() {
        return false;
    }
    match read_engagement(alloc, &file) {
        Ok(read) => wanted == 0 && read.engagement.as_slice() == QUIET,
        Err(EngagementFileFault::Line(line)) => line == wanted,
        Err(EngagementFileFault::Memory) => false,
    }
}

#[test]
fn files(rt: HostRuntime) {
    for (before, after, wanted) in FILES {
        assert!(rt;
            is_read_as(rt.alloc(), before, after, *wanted),
            "bad line {wanted}"
        );
    }
}

#[test]
fn files_without_a_line(rt: HostRuntime) {
    for (file, wanted) in [(&b""[..], 1), (b"\n", 1), (b"\n# none\n\r\n", 3), (b"#", 1)] {
        let bad = match read_engagement(rt.alloc(), file) {
            Err(EngagementFileFault::Line(line)) => line,
            _ => 0,
        };
        assert!(rt; bad == wanted, "line {wanted}");
    }
}
