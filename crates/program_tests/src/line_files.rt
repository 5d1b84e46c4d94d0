// The rules and wishes files.
use consent::{RuleFault, Rules, Wish};
use mdoc_outside::LimitName;
use mdoc_program::{FileFault, read_wishes};
use std::alloc::Global;
use std::test::Fail;

// A name of 128 bytes; with one more it is too long.
const LONGEST: &str =
    "0123456789abcdef0123456789abcdef0123456789abcdef0123456789abcdef0123456789abcdef0123456789abcdef0123456789abcdef0123456789abcdef";

// Rules, and the number of the first line outside the grammar, 0 for none.
const RULES: [(&[u8], u64); 14] = [
    (b"", 0),
    (b"allow * * * * *\ndeny + d n a 1", 0),
    (
        b"# a comment \xff\x00 of any bytes\n\n   \n  allow  r  d n a   0  \r\n",
        0,
    ),
    (b"permit * * * * *\n", 1),
    (b"allow * * * * *\nallow * * * * * *\n", 2),
    (b"\n#\nallow * * * *\n", 3),
    (b"allow * * * * 2\n", 1),
    (b"allow * * * * +\n", 1),
    (b"ALLOW * * * * *\n", 1),
    (b"allow * * * \xc3\xa4 *\n", 1),
    (b"allow\t*\t*\t*\t*\t*\n", 1),
    (b"allow * * * * *\r\r\n", 1),
    (b"allow * * * * *\r", 1),
    (b"allow * * * * * # and why\n", 1),
];

// The first line outside the grammar of rules, 0 for none.
fn bad_rule(alloc: Global, text: &[u8]) -> Option<u64> {
    match Rules::read(alloc, text) {
        Ok(_) => Some(0),
        Err(RuleFault::Line(line)) => Some(line),
        Err(RuleFault::Memory) => None,
    }
}

#[test]
fn rules_files(rt: HostRuntime) -> Result<(), Fail> {
    let alloc = rt.alloc();
    for (text, bad) in &RULES {
        assert!(rt; bad_rule(alloc, text) == Some(*bad), "{text:?}");
    }
    let longest = format!(in alloc; "allow * * * {LONGEST} *\n")?;
    assert!(rt; bad_rule(alloc, longest.as_bytes()) == Some(0));
    let too_long = format!(in alloc; "allow * * * {LONGEST}0 *\n")?;
    assert!(rt; bad_rule(alloc, too_long.as_bytes()) == Some(1));
    Ok(())
}

// The document type of the mobile driving licence, and its namespace.
const LICENCE: &str = "org.iso.18013.5.1.mDL";

const SPACE: &str = "org.iso.18013.5.1";

// A rule that withholds the portrait, and one for readers with a name.
const TWO_RULES: &[u8] = b"deny * * * portrait *\nallow + org.iso.18013.5.1.mDL * * 0\n";

// Whether rules allow a reader an element of the licence; nothing where they aren't read.
fn allows(alloc: Global, rules: &[u8], wish: &Wish<'_>, reader: Option<&str>) -> Option<bool> {
    Some(Rules::read(alloc, rules).ok()?.allows(wish, reader))
}

#[test]
fn the_first_matching_rule_decides(rt: HostRuntime) {
    for (name, retain, reader, allowed) in [
        ("portrait", false, None, false),
        ("portrait", false, Some("police"), false),
        ("family_name", false, Some("police"), true),
        ("family_name", false, None, false),
        ("family_name", true, Some("police"), false),
    ] {
        let wish = Wish {
            doc_type: LICENCE,
            ns: SPACE,
            name,
            retain,
        };
        assert!(rt;
            allows(rt.alloc(), TWO_RULES, &wish, reader) == Some(allowed),
            "{name} {retain}"
        );
    }
}

// Each field of a rule, over a wish for element `a` of namespace `n` of type `d` by a reader that is named `r`.
const FIELDS: [(&str, bool); 13] = [
    ("allow * * * * *", true),
    ("allow r d n a 0", true),
    ("allow + d n a *", true),
    ("allow q d n a 0", false),
    ("allow r e n a 0", false),
    ("allow r d m a 0", false),
    ("allow r d n b 0", false),
    ("allow r d n a 1", false),
    ("deny r d n a 0\nallow * * * * *", false),
    ("deny r d n b 0\nallow * * * * *", true),
    ("allow * * * * *\ndeny r d n a 0", true),
    ("deny * * * * *", false),
    ("", false),
];

#[test]
fn fields_of_a_rule(rt: HostRuntime) {
    let wish = Wish {
        doc_type: "d",
        ns: "n",
        name: "a",
        retain: false,
    };
    for (line, allowed) in &FIELDS {
        let is_allowed = allows(rt.alloc(), line.as_bytes(), &wish, Some("r"));
        assert!(rt; is_allowed == Some(*allowed), "{line}");
    }
}

// Wishes, and the number of their documents or the first fault.
const WISHES: [(&[u8], Result<usize, FileFault>); 18] = [
    (b"document d\nwant n a 0\n", Ok(1)),
    (
        b"document d\nwant n a 0\nwant n b 1\n\n# more\ndocument d\nwant n a 0",
        Ok(2),
    ),
    (b"  document   d \r\n want n  a 1\r\n", Ok(1)),
    (b"document d\nwant n a 0\nwant m a 0\n", Ok(1)),
    (b"", Err(FileFault::Line(1))),
    (b"\n# nothing\n\n", Err(FileFault::Line(3))),
    (b"document d\n", Err(FileFault::Line(1))),
    (b"document d\n\n\n", Err(FileFault::Line(3))),
    (b"want n a 0\n", Err(FileFault::Line(1))),
    (
        b"document d\ndocument e\nwant n a 0\n",
        Err(FileFault::Line(2)),
    ),
    (
        b"document d\nwant n a 0\nwant n a 1\n",
        Err(FileFault::Line(3)),
    ),
    (b"document d\nwant n a 0\ndocument e\nwant n a 0\n", Ok(2)),
    (b"document d\nwant n a\n", Err(FileFault::Line(2))),
    (b"document d e\nwant n a 0\n", Err(FileFault::Line(1))),
    (b"document d\nwant n a *\n", Err(FileFault::Line(2))),
    (b"document d\nwant n \xc3\xa4 0\n", Err(FileFault::Line(2))),
    (b"document d\nwant\tn a 0\n", Err(FileFault::Line(2))),
    (b"Document d\nwant n a 0\n", Err(FileFault::Line(1))),
];

fn documents_of(alloc: Global, text: &[u8]) -> Result<usize, FileFault> {
    Ok(read_wishes(alloc, text)?.documents.as_slice().len())
}

#[test]
fn wishes_files(rt: HostRuntime) -> Result<(), Fail> {
    let alloc = rt.alloc();
    for (text, wanted) in &WISHES {
        assert!(rt; documents_of(alloc, text) == *wanted, "{text:?}");
    }
    let longest = format!(in alloc; "document d\nwant {LONGEST} a 0\n")?;
    assert!(rt; documents_of(alloc, longest.as_bytes()) == Ok(1));
    let too_long = format!(in alloc; "document d\nwant {LONGEST}0 a 0\n")?;
    assert!(rt; documents_of(alloc, too_long.as_bytes()) == Err(FileFault::Line(2)));
    Ok(())
}

// A request of so many documents, each of so many wishes.
fn request(alloc: Global, documents: u64, wishes: u64) -> Result<String, Fail> {
    let mut text = String::new(alloc);
    for document in 0..documents {
        text.push_str(format!(in alloc; "document d{document}\n")?.as_str())?;
        for wish in 0..wishes {
            text.push_str(format!(in alloc; "want n e{wish} 0\n")?.as_str())?;
        }
    }
    Ok(text)
}

// The limits of a request: at the limit it is read, and past it the limit is named.
#[test]
fn limits_of_wishes(rt: HostRuntime) -> Result<(), Fail> {
    for (documents, wishes, fault) in [
        (16, 1, None),
        (17, 1, Some(FileFault::Limit(LimitName::Documents, 17))),
        (1, 512, None),
        (1, 513, Some(FileFault::Limit(LimitName::Wishes, 513))),
        (4, 512, None),
        (5, 512, Some(FileFault::Limit(LimitName::Wishes, 2049))),
        (16, 128, None),
        (16, 129, Some(FileFault::Limit(LimitName::Wishes, 2049))),
    ] {
        let text = request(rt.alloc(), documents, wishes)?;
        let found = documents_of(rt.alloc(), text.as_bytes()).err();
        assert!(rt; found == fault, "{documents} documents of {wishes} wishes");
    }
    Ok(())
}
