// The command `issue`: what it reads, writes and prints, and how its faults are reported. The root's certificate is that of
// `tests/vectors/issued_packages`.
use crate::outcome::{Fails, Named, calls, comes_to};
use std::alloc::Global;
use std::test::Fail;

const WORDS: &str = "issue --spec s --out p";

const NO_FAILS: Fails<'static> = (&[], &[]);

const SPEC: &[u8] =
    b"type d.e\nauth mac\ncopies 2\nsigner new\nsigned 2024-01-01T00:00:00Z\nfrom 2024-01-02T00:00:00Z\n\
    until 2059-12-31T23:59:59Z\nupdate 2025-01-01T00:00:00Z\nelement n a text x\nelement m b uint 7\nelement n c bool true\n\
    element n d bytes 000000000000000000000000000000000000000000000000000000000000\n";

// The first line that is printed, and the second one.
const ROOT: &str = "root issuer \
    308201103081b7a003020102020101300a06082a8648ce3d0403023011310f300d06035504030c0669737375\
    65723020170d3234303130323030303030305a180f32303539313233313233353935395a3011310f300d0603\
    5504030c066973737565723059301306072a8648ce3d020106082a8648ce3d030107034200046668b11be836\
    4e852a952b3f2e849b72cf07597aad51754a6a96fad583a54cbb7843cb69ad71905e1ec868f6a1b3ce76fd0b\
    e173e94dc0f92976dbe04f6f27f2300a06082a8648ce3d04030203480030450221008f248c8efce36bdcefd8\
    1312bde19f9f6774342f24177a54b7acb1bf106de878022049c50a83a248a0bd1dfe6bf3ea5c053e5611d075\
    f01a3e3c59a4e980c6e296f6\n";

const ISSUED: &str = "issued d.e copies 2 elements 4\n";

// Whether the words over the spec end with that status line after these calls of the cabinet, and print so.
fn issues(
    alloc: Global,
    words: &str,
    fails: Fails<'_>,
    status: &str,
    cabinet: &str,
    lines: &[&str],
) -> Result<bool, Fail> {
    let mut puts = String::new(alloc);
    for line in lines {
        puts.push_str(line)?;
        puts.push_str(if *line == "!" { "" } else { "|" })?;
    }
    calls(
        alloc,
        words,
        &[("s", SPEC)],
        fails,
        status,
        (cabinet, puts.as_str()),
    )
}

#[test]
fn package_is_written_before_the_lines(rt: HostRuntime) -> Result<(), Fail> {
    let both: &[&str] = &[ROOT, ISSUED];
    let first: &[&str] = &[ROOT, "!"];
    let cases: [(&str, Fails<'static>, &str, &str, &[&str]); 7] = [
        (WORDS, NO_FAILS, "Done", "rs wp", both),
        ("issue --out p --spec s", NO_FAILS, "Done", "rs wp", both),
        (
            "issue --spec n --out p",
            NO_FAILS,
            "Missing Spec",
            "rn",
            &[],
        ),
        (WORDS, (&[0], &[]), "Cabinet", "Rs", &[]),
        (WORDS, (&[1], &[]), "Cabinet", "rs Wp", &[]),
        (WORDS, (&[], &[0]), "Sink", "rs wp", &["!"]),
        (WORDS, (&[], &[1]), "Sink", "rs wp", first),
    ];
    for (words, fails, status, cabinet, lines) in &cases {
        assert!(rt;
            issues(rt.alloc(), words, *fails, status, cabinet, lines)?,
            "{words} {status}"
        );
    }
    Ok(())
}

// Whether that spec is refused with this status line, and nothing is printed.
fn refuses(alloc: Global, spec: &[u8], status: &str) -> Result<bool, Fail> {
    let files: &[Named<'_>] = &[("s", spec)];
    comes_to(alloc, WORDS, files, NO_FAILS, status, b"")
}

#[test]
fn faults_of_specs(rt: HostRuntime) -> Result<(), Fail> {
    for (spec, status) in [
        (&b""[..], "Form Spec Line 1"),
        (b"type d\ncopies 65\n", "Form Spec Line 2"),
        (
            b"type d\nauth sig\ncopies 1\nsigner new\nsigned 2024-01-02T00:00:00Z\nfrom 2024-01-01T00:00:00Z\n\
            until 2029-01-01T00:00:00Z\nelement n a bool true\n",
            "Form Spec Order 0",
        ),
        (
            b"type d\nauth sig\ncopies 1\nsigner new\nsigned 2024-01-01T00:00:00Z\nfrom 2024-01-01T00:00:00Z\n\
            until 2029-01-01T00:00:00Z\nelement org.iso.18013.5.1 birth_date text x\n",
            "Form Spec Row KindWrong 8",
        ),
        (
            b"type org.iso.18013.5.1.mDL\nauth sig\ncopies 1\nsigner new\nsigned 2024-01-01T00:00:00Z\n\
            from 2024-01-01T00:00:00Z\nuntil 2029-01-01T00:00:00Z\nelement n a bool true\n",
            "Form Spec Missing 1 0",
        ),
    ] {
        assert!(rt; refuses(rt.alloc(), spec, status)?, "{status}");
    }
    Ok(())
}

#[test]
fn words_outside_the_form(rt: HostRuntime) -> Result<(), Fail> {
    for words in [
        "issue",
        "issue --spec s",
        "issue --out p",
        "issue --spec s --out -p",
        "issue --spec s --out p --out q",
        "issue --spec s --out p --rules r",
    ] {
        assert!(rt;
            comes_to(rt.alloc(), words, &[("s", SPEC)], NO_FAILS, "Usage", b"")?,
            "{words}"
        );
    }
    Ok(())
}
