// What `draft` prints of stores that hold something.
use crate::outcome::{Named, comes_to};
use std::alloc::Global;
use std::test::Fail;

const WORDS: &str = "draft --store s --wishes w --rules r";

// A store up to its array of documents, and the documents of one type up to their copies.
const STORE: &[u8] = b"\xa2\x67version\x01\x69documents";

const DOCUMENT: &[u8] = b"\xa3\x67docType\x61d\x64auth\x00\x66copies";

// A copy up to its namespaces, unused and used.
const COPY: &[u8] = b"\xa4\x63key\x00\x64used\xf4\x6aissuerAuth\x84\x40\xa0\xf6\x40\x6anameSpaces";

const USED_COPY: &[u8] =
    b"\xa4\x63key\x01\x64used\xf5\x6aissuerAuth\x84\x40\xa0\xf6\x40\x6anameSpaces";

// Items: name `a` with the values "x" and "y", and name `b`, also with another value and a longer salt.
const A: &[u8] = b"\xd8\x18\x58\x37\xa4\x68digestID\x00\x66random\x41\x01\
\x71elementIdentifier\x61a\x6celementValue\x61x";

const OTHER_A: &[u8] = b"\xd8\x18\x58\x37\xa4\x68digestID\x00\x66random\x41\x02\
\x71elementIdentifier\x61a\x6celementValue\x61y";

const B: &[u8] = b"\xd8\x18\x58\x37\xa4\x68digestID\x01\x66random\x41\x03\
\x71elementIdentifier\x61b\x6celementValue\x61x";

const LONGER_B: &[u8] = b"\xd8\x18\x58\x3c\xa4\x68digestID\x01\x66random\x43\x04\x05\x06\
\x71elementIdentifier\x61b\x6celementValue\x64more";

const ALL: &str = "allow * * * * *\n";

// Of one document: its front in the core, and the front of the core that has this document alone.
const GIVEN: &[u8] = b"\xa1\x69documents\x81\xa2\x67docType\x61d\x6anameSpaces";

const GIVEN_WITH_ERRORS: &[u8] = b"\xa1\x69documents\x81\xa3\x67docType\x61d\x6anameSpaces";

const A_ALONE: &[&[u8]] = &[
    GIVEN_WITH_ERRORS,
    b"\xa1\x61n\x81",
    A,
    b"\x66errors\xa1\x61n\xa1\x61b\x00",
];

const NOTHING: &[&[u8]] = &[b"\xa1\x6edocumentErrors\x81\xa1\x61d\x00"];

// The copies of the one document of a store, the wishes, the rules, and the core by its parts.
const CASES: [(&[&[u8]], &str, &str, &[&[u8]]); 17] = [
    // nothing is allowed
    (
        &[b"\x81", COPY, b"\xa1\x61n\x81", A],
        "document d\nwant n a 0\n",
        "",
        NOTHING,
    ),
    // one is held, the other not; then it is held and denied, also by another value and salt
    (
        &[b"\x81", COPY, b"\xa1\x61n\x81", A],
        "document d\nwant n a 0\nwant n b 0\n",
        ALL,
        A_ALONE,
    ),
    (
        &[b"\x81", COPY, b"\xa1\x61n\x82", A, B],
        "document d\nwant n a 0\nwant n b 0\n",
        "deny * d n b *\nallow * * * * *\n",
        A_ALONE,
    ),
    (
        &[b"\x81", COPY, b"\xa1\x61n\x82", A, LONGER_B],
        "document d\nwant n a 0\nwant n b 0\n",
        "deny * d n b *\nallow * * * * *\n",
        A_ALONE,
    ),
    // items stand in the order asked
    (
        &[b"\x81", COPY, b"\xa1\x61n\x82", A, B],
        "document d\nwant n b 0\nwant n a 0\n",
        ALL,
        &[GIVEN, b"\xa1\x61n\x82", B, A],
    ),
    // what isn't asked for isn't given
    (
        &[b"\x81", COPY, b"\xa1\x61n\x82", A, B],
        "document d\nwant n b 0\n",
        ALL,
        &[GIVEN, b"\xa1\x61n\x81", B],
    ),
    // a namespace stands at its first appearance among the items, and among the errors
    (
        &[b"\x81", COPY, b"\xa2\x61n\x82", A, B, b"\x61m\x81", OTHER_A],
        "document d\nwant m a 0\nwant n a 0\nwant m b 0\nwant n b 0\nwant k a 0\nwant m c 0\n",
        ALL,
        &[
            GIVEN_WITH_ERRORS,
            b"\xa2\x61m\x81",
            OTHER_A,
            b"\x61n\x82",
            A,
            B,
            b"\x66errors\xa2\x61m\xa2\x61b\x00\x61c\x00\x61k\xa1\x61a\x00",
        ],
    ),
    // one document type asked for twice
    (
        &[b"\x81", COPY, b"\xa1\x61n\x81", A],
        "document d\nwant n a 0\ndocument d\nwant n b 0\ndocument d\nwant n a 1\n",
        ALL,
        &[
            b"\xa2\x69documents\x82\xa2\x67docType\x61d\x6anameSpaces\xa1\x61n\x81",
            A,
            b"\xa2\x67docType\x61d\x6anameSpaces\xa1\x61n\x81",
            A,
            b"\x6edocumentErrors\x81\xa1\x61d\x00",
        ],
    ),
    // the first unused copy, or the first
    (
        &[
            b"\x82",
            USED_COPY,
            b"\xa1\x61n\x81",
            A,
            COPY,
            b"\xa1\x61n\x81",
            OTHER_A,
        ],
        "document d\nwant n a 0\n",
        ALL,
        &[GIVEN, b"\xa1\x61n\x81", OTHER_A],
    ),
    (
        &[
            b"\x82",
            USED_COPY,
            b"\xa1\x61n\x81",
            A,
            USED_COPY,
            b"\xa1\x61n\x81",
            OTHER_A,
        ],
        "document d\nwant n a 0\n",
        ALL,
        &[GIVEN, b"\xa1\x61n\x81", A],
    ),
    (
        &[
            b"\x83",
            USED_COPY,
            b"\xa0",
            COPY,
            b"\xa0",
            COPY,
            b"\xa1\x61n\x81",
            A,
        ],
        "document d\nwant n a 0\n",
        ALL,
        NOTHING,
    ),
    // rules by each field, for a reader that isn't known
    (
        &[b"\x81", COPY, b"\xa1\x61n\x81", A],
        "document d\nwant n a 0\n",
        "allow + d n a 0\n",
        NOTHING,
    ),
    (
        &[b"\x81", COPY, b"\xa1\x61n\x81", A],
        "document d\nwant n a 0\n",
        "allow r d n a 0\n",
        NOTHING,
    ),
    (
        &[b"\x81", COPY, b"\xa1\x61n\x81", A],
        "document d\nwant n a 0\n",
        "allow * d n a 1\n",
        NOTHING,
    ),
    (
        &[b"\x81", COPY, b"\xa1\x61n\x81", A],
        "document d\nwant n a 0\n",
        "allow * d m a 0\n",
        NOTHING,
    ),
    (
        &[b"\x81", COPY, b"\xa1\x61n\x81", A],
        "document d\nwant n a 0\n",
        "allow * d n a 0\ndeny * * * * *\n",
        &[GIVEN, b"\xa1\x61n\x81", A],
    ),
    // a type that the store doesn't have, beside one that it has
    (
        &[b"\x81", COPY, b"\xa1\x61n\x81", A],
        "document e\nwant n a 0\ndocument d\nwant n a 0\n",
        ALL,
        &[
            b"\xa2\x69documents\x81\xa2\x67docType\x61d\x6anameSpaces\xa1\x61n\x81",
            A,
            b"\x6edocumentErrors\x81\xa1\x61e\x00",
        ],
    ),
];

// Bytes one after the other.
fn joined(alloc: Global, parts: &[&[u8]]) -> Result<Vec<u8>, Fail> {
    let mut all = Vec::new(alloc);
    for part in parts {
        all.extend_from_slice(part)?;
    }
    Ok(all)
}

// Whether the command prints those bytes of these files and ends with that status line.
fn drafts(
    alloc: Global,
    store: &[u8],
    (wishes, rules): (&str, &str),
    status: &str,
    printed: &[u8],
) -> Result<bool, Fail> {
    let files: &[Named<'_>] = &[
        ("s", store),
        ("w", wishes.as_bytes()),
        ("r", rules.as_bytes()),
    ];
    comes_to(alloc, WORDS, files, (&[], &[]), status, printed)
}

// A store with one document of these copies.
fn store_of(alloc: Global, copies: &[&[u8]]) -> Result<Vec<u8>, Fail> {
    let copies = joined(alloc, copies)?;
    joined(alloc, &[STORE, b"\x81", DOCUMENT, &copies])
}

// The line of a core.
fn line_of(alloc: Global, core: &[&[u8]]) -> Result<String, Fail> {
    let digits = hex::encode(alloc, joined(alloc, core)?)?;
    Ok(format!(in alloc; "core {digits}\n")?)
}

#[test]
fn what_is_released(rt: HostRuntime) -> Result<(), Fail> {
    for (copies, wishes, rules, core) in &CASES {
        let store = store_of(rt.alloc(), copies)?;
        let printed = line_of(rt.alloc(), core)?;
        let is_drafted = drafts(
            rt.alloc(),
            &store,
            (wishes, rules),
            "Done",
            printed.as_bytes(),
        )?;
        assert!(rt; is_drafted, "{wishes} {rules}");
    }
    Ok(())
}

// Bytes that are no store, in two parts, and how they are refused.
const NO_STORES: [(&[u8], &[u8], &str); 9] = [
    (b"", b"", "Form Store Cbor Truncated 0"),
    (STORE, b"", "Form Store Cbor Truncated 20"),
    (
        b"\xa2\x67version\x01\x69document",
        b"",
        "Form Store Cbor Truncated 10",
    ),
    (STORE, b"\x80\x00", "Form Store Cbor Trailing 21"),
    (
        b"\xa2\x67version\x09\x69documents",
        b"\x80",
        "Form Store Version 9",
    ),
    (STORE, b"\x81", "Form Store Cbor Truncated 21"),
    (STORE, b"\x81\x80", "Form Store Field docType 21"),
    (b"\xa1\x69documents", b"\x80", "Form Store Field version 0"),
    (
        b"\xa4\x61a\x01\x67version\x01\x67version\x01",
        b"",
        "Form Store Doubled 13",
    ),
];

#[test]
fn no_stores(rt: HostRuntime) -> Result<(), Fail> {
    for (front, back, status) in &NO_STORES {
        let store = joined(rt.alloc(), &[front, back])?;
        let is_refused = drafts(
            rt.alloc(),
            &store,
            ("document d\nwant n a 0\n", ALL),
            status,
            b"",
        )?;
        assert!(rt; is_refused, "{store:?}");
    }
    Ok(())
}
