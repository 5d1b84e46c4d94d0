// The command `draft`.
use crate::outcome::{Fails, Named, calls, comes_to};
use std::alloc::Global;
use std::test::Fail;

// {"version": 1, "documents": []}
const EMPTY: &[u8] = b"\xa2\x67version\x01\x69documents\x80";

const WORDS: &str = "draft --store s --wishes w --rules r";

const WISHES: &[u8] = b"document d\nwant n a 0\n";

const RULES: &[u8] = b"allow * * * * *\n";

const FILES: &[Named<'static>] = &[("s", EMPTY), ("w", WISHES), ("r", RULES)];

// The core {"documentErrors": [{"d": 0}]}.
const PRINTED: &str = "core a16e646f63756d656e744572726f727381a1616400\n";

const NO_FAILS: Fails<'static> = (&[], &[]);

// Files of rules that say nothing, and of wishes for two documents.
const NO_RULES: &[Named<'static>] = &[("s", EMPTY), ("w", WISHES), ("r", b"")];

const TWO_DOCUMENTS: &[Named<'static>] = &[
    ("s", EMPTY),
    (
        "w",
        b"document d\nwant n a 0\ndocument e\nwant n a 1\nwant m a 0\n",
    ),
    ("r", RULES),
];

const TWO_ERRORS: &str = "core a16e646f63756d656e744572726f727382a1616400a1616500\n";

// Whether the command prints that of these files.
fn prints(alloc: Global, files: &[Named<'_>], printed: &str) -> Result<bool, Fail> {
    comes_to(alloc, WORDS, files, NO_FAILS, "Done", printed.as_bytes())
}

// Whether the command prints nothing of these files, and ends with that status line.
fn refuses(alloc: Global, files: &[Named<'_>], status: &str) -> Result<bool, Fail> {
    comes_to(alloc, WORDS, files, NO_FAILS, status, b"")
}

#[test]
fn the_empty_store(rt: HostRuntime) -> Result<(), Fail> {
    assert!(rt; prints(rt.alloc(), FILES, PRINTED)?);
    assert!(rt; prints(rt.alloc(), NO_RULES, PRINTED)?);
    assert!(rt; prints(rt.alloc(), TWO_DOCUMENTS, TWO_ERRORS)?);
    Ok(())
}

// Words that are an order, but for files that are missing or outside their form; and words that are none.
const ORDERS: [(&str, &str); 20] = [
    ("draft --rules r --store s --wishes w", "Done"),
    ("", "Usage"),
    ("draft", "Usage"),
    ("daft --store s --wishes w --rules r", "Usage"),
    ("draft --store s --wishes w", "Usage"),
    ("draft --store s --wishes w --rules", "Usage"),
    ("draft --store s --wishes w --rules r more", "Usage"),
    ("draft --store s --wishes w --rules r --moment 0", "Usage"),
    ("draft --store s --wishes w --rules r --rules r", "Usage"),
    ("draft --store s --store s --wishes w", "Usage"),
    ("draft --store s --wishes w --roots r", "Usage"),
    ("draft --store -s --wishes w --rules r", "Usage"),
    ("draft --store --wishes --wishes w --rules r", "Usage"),
    ("draft store s wishes w rules r", "Usage"),
    ("draft --store s --wishes w --rules absent", "Missing Rules"),
    (
        "draft --store s --wishes absent --rules absent",
        "Missing Wishes",
    ),
    (
        "draft --store absent --wishes absent --rules r",
        "Missing Store",
    ),
    (
        "draft --store w --wishes absent --rules r",
        "Form Store Field version 0",
    ),
    (
        "draft --store s --wishes r --rules absent",
        "Form Wishes Line 1",
    ),
    ("draft --store s --wishes w --rules w", "Form Rules Line 1"),
];

// Whether words over the files end with that status, and print something exactly where it is `Done`.
fn ends(alloc: Global, words: &str, status: &str) -> Result<bool, Fail> {
    let printed = if status == "Done" { PRINTED } else { "" };
    comes_to(alloc, words, FILES, NO_FAILS, status, printed.as_bytes())
}

#[test]
fn words(rt: HostRuntime) -> Result<(), Fail> {
    for (words, status) in &ORDERS {
        assert!(rt; ends(rt.alloc(), words, status)?, "{words}");
    }
    Ok(())
}

// The calls that fail, and how the run ends.
const FAILING: [(Fails<'static>, &str, &str); 7] = [
    ((&[0], &[]), "Cabinet", ""),
    ((&[1], &[]), "Cabinet", ""),
    ((&[2], &[]), "Cabinet", ""),
    ((&[3], &[]), "Done", PRINTED),
    ((&[], &[0]), "Sink", ""),
    ((&[], &[1]), "Done", PRINTED),
    ((&[], &[2]), "Done", PRINTED),
];

#[test]
fn failing_calls(rt: HostRuntime) -> Result<(), Fail> {
    for (fails, status, printed) in &FAILING {
        assert!(rt;
            comes_to(rt.alloc(), WORDS, FILES, *fails, status, printed.as_bytes())?,
            "{fails:?}"
        );
    }
    Ok(())
}

// Rules that are just short enough, and a store that is too long, before wishes that aren't there.
#[test]
fn files_that_are_too_long(rt: HostRuntime) -> Result<(), Fail> {
    let mut longest = b"# a comment, and then spaces\n".to_vec(rt.alloc())?;
    longest.resize(16_777_216, b' ')?;
    let files: &[Named<'_>] = &[("s", EMPTY), ("w", WISHES), ("r", longest.as_slice())];
    assert!(rt; prints(rt.alloc(), files, PRINTED)?);
    longest.push(b' ')?;
    let files: &[Named<'_>] = &[("s", longest.as_slice()), ("r", RULES)];
    assert!(rt; refuses(rt.alloc(), files, "Limit FileBytes 16777217")?);
    Ok(())
}

// Wishes, rules, and the status line, which tells the first fault.
const FAULTS: [(&str, &str, &str); 4] = [
    ("", "", "Form Wishes Line 1"),
    ("document d\n", "", "Form Wishes Line 1"),
    (
        "document d\n\n# more\nwant n a 2\n",
        "allow\n",
        "Form Wishes Line 4",
    ),
    (
        "document d\nwant n a 0\n",
        "# all\n\nallow * * * * *\nallow\n",
        "Form Rules Line 4",
    ),
];

// Whether line files over the empty store end with that status.
fn tells<'x>(alloc: Global, wishes: &'x str, rules: &'x str, status: &str) -> Result<bool, Fail> {
    let files: &[Named<'_>] = &[
        ("s", EMPTY),
        ("w", wishes.as_bytes()),
        ("r", rules.as_bytes()),
    ];
    refuses(alloc, files, status)
}

#[test]
fn faults_of_line_files(rt: HostRuntime) -> Result<(), Fail> {
    for (wishes, rules, status) in &FAULTS {
        assert!(rt;
            tells(rt.alloc(), wishes, rules, status)?,
            "{wishes} {rules}"
        );
    }
    Ok(())
}

// Wishes for 17 documents, between two texts.
fn many(alloc: Global, front: &str, behind: &str) -> Result<String, Fail> {
    let mut text = String::from_str(alloc, front)?;
    for number in 0u64..17 {
        text.push_str(format!(in alloc; "document d{number}\nwant n a 0\n")?.as_str())?;
    }
    text.push_str(behind)?;
    Ok(text)
}

// A limit that is exceeded before a line outside the grammar is reported, and after one not.
#[test]
fn too_many_documents(rt: HostRuntime) -> Result<(), Fail> {
    for (front, behind, rules, status) in [
        ("", "", "allow\n", "Limit Documents 17"),
        ("", "want n\n", "", "Limit Documents 17"),
        ("want n a 0\n", "", "", "Form Wishes Line 1"),
    ] {
        let wishes = many(rt.alloc(), front, behind)?;
        assert!(rt;
            tells(rt.alloc(), wishes.as_str(), rules, status)?,
            "{front} {behind}"
        );
    }
    Ok(())
}

// What is printed of the files, as one put.
const PUT: &str = "core a16e646f63756d656e744572726f727381a1616400\n|";

// Words, the calls that fail, the status line, the cabinet's calls and the sink's.
const CALLS: [(&str, Fails<'static>, &str, (&str, &str)); 10] = [
    (WORDS, NO_FAILS, "Done", ("rs rw rr", PUT)),
    (
        "draft --rules r --wishes w --store s",
        NO_FAILS,
        "Done",
        ("rs rw rr", PUT),
    ),
    // an earlier file is missing, before the cabinet would fail at a later one
    (
        "draft --store s --wishes x --rules r",
        (&[2], &[]),
        "Missing Wishes",
        ("rs rx", ""),
    ),
    (
        "draft --store x --wishes w --rules r",
        (&[1], &[]),
        "Missing Store",
        ("rx", ""),
    ),
    // and the cabinet fails at an earlier one, before a later one is missing
    (
        "draft --store s --wishes w --rules x",
        (&[1], &[]),
        "Cabinet",
        ("rs Rw", ""),
    ),
    (
        "draft --store s --wishes x --rules r",
        (&[1], &[]),
        "Cabinet",
        ("rs Rx", ""),
    ),
    // an earlier file is outside its form
    (
        "draft --store s --wishes r --rules r",
        (&[2], &[]),
        "Form Wishes Line 1",
        ("rs rr", ""),
    ),
    // one file in two roles is read twice, once for each
    (
        "draft --store s --wishes w --rules w",
        NO_FAILS,
        "Form Rules Line 1",
        ("rs rw rw", ""),
    ),
    (WORDS, (&[], &[0]), "Sink", ("rs rw rr", "!")),
    ("draft --store s --wishes w", NO_FAILS, "Usage", ("", "")),
];

// The files are read in the order of the table up to the first that ends the run, each once and no other, and each line
// is one put.
#[test]
fn calls_of_a_run(rt: HostRuntime) -> Result<(), Fail> {
    let files: &[Named<'_>] = &[("s", EMPTY), ("w", WISHES), ("r", RULES), ("other", RULES)];
    for (words, fails, status, shown) in &CALLS {
        assert!(rt;
            calls(rt.alloc(), words, files, *fails, status, *shown)?,
            "{words}"
        );
    }
    Ok(())
}
