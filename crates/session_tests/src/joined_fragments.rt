// What a joiner answers, fragment by fragment, and a plain division of the list beside it.
use ble_fragments::{Fed, JoinFault, Joiner};
use mdoc_outside::{Fragment, Octets};
use std::alloc::Global;

/// A fragment: a data fragment's bytes, or a value of State.
#[derive(Clone, Copy)]
enum Given {
    Data(&'static [u8]),
    State(u8),
}

fn fragment(alloc: Global, given: Given) -> Option<Fragment> {
    match given {
        Given::Data(bytes) => Some(Fragment::Data(Octets::copy_of(alloc, bytes).ok()?)),
        Given::State(value) => Some(Fragment::State(value)),
    }
}

fn message(alloc: Global, bytes: &[u8]) -> Option<String> {
    let digits = hex::encode(alloc, bytes).ok()?;
    format!(in alloc; "Message {digits}").ok()
}

fn shown(alloc: Global, answer: &Result<Fed, JoinFault>) -> Option<String> {
    match answer {
        Ok(Fed::More) => String::from_str(alloc, "More").ok(),
        Ok(Fed::Message(bytes)) => message(alloc, bytes.as_slice()),
        Ok(Fed::Started) => String::from_str(alloc, "Started").ok(),
        Ok(Fed::Ended) => String::from_str(alloc, "Ended").ok(),
        Err(fault) => format!(in alloc; "{fault:?}").ok(),
    }
}

/// Fragments, each with the answer to it: bytes in hexadecimal digits, or `State` and a value.
const WORKED: [&str; 7] = [
    "01aa: More; 01aa: More; 00bb: Message aaaabb",
    "02aa: BadLead(2); 00: BadLead(2)",
    ": EmptyFragment; State 1: EmptyFragment",
    "State 3: BadState(3); State 2: BadState(3)",
    "00: Message ",
    "01aa: More; State 1: Started; 00: Message aa",
    "01aa: More; State 2: Ended; 07: Ended",
];

/// The fragment that is said by digits, or by the word `State`.
fn fragment_said(alloc: Global, said: &str) -> Option<Fragment> {
    match said.strip_prefix("State ") {
        Some(value) => Some(Fragment::State(value.parse::<u8>().ok()?)),
        None => {
            let bytes = hex::decode(alloc, said.as_bytes()).ok()?;
            Some(Fragment::Data(Octets::from_vec(bytes)))
        }
    }
}

/// Whether a joiner answers a fragment as is said.
fn answers(alloc: Global, joiner: &mut Joiner, said: &str) -> Option<bool> {
    let (given, wanted) = said.split_once(": ")?;
    let answer = joiner.feed(&fragment_said(alloc, given)?);
    Some(shown(alloc, &answer)?.as_str() == wanted)
}

/// Whether a new joiner answers each fragment as is said.
fn answers_all(alloc: Global, said: &str) -> Option<bool> {
    let mut joiner = Joiner::new(alloc);
    for part in said.split("; ") {
        if !answers(alloc, &mut joiner, part)? {
            return Some(false);
        }
    }
    Some(true)
}

#[test]
fn worked_cases(rt: HostRuntime) {
    for said in WORKED {
        assert!(rt; answers_all(rt.alloc(), said) == Some(true), "{said}");
    }
}

/// Whether an equal joiner takes nothing of what the first one takes later.
fn goes_on_by_itself(alloc: Global) -> Option<bool> {
    let mut joiner = Joiner::new(alloc);
    let is_more = answers(alloc, &mut joiner, "01aa: More")?;
    let is_again = answers(alloc, &mut joiner, "01aa: More")?;
    let mut other = joiner.again().ok()?;
    let is_message = answers(alloc, &mut joiner, "00bb: Message aaaabb")?;
    let is_next = answers(alloc, &mut joiner, "00: Message ")?;
    let is_own = answers(alloc, &mut other, "00bb: Message aaaabb")?;
    Some(is_more && is_again && is_message && is_next && is_own)
}

#[test]
fn an_equal_joiner_goes_on_by_itself(rt: HostRuntime) {
    assert!(rt; goes_on_by_itself(rt.alloc()) == Some(true));
}

const TABLE: [Given; 10] = [
    Given::Data(b"\x01"),
    Given::Data(b"\x01\xaa"),
    Given::Data(b"\x00"),
    Given::Data(b"\x00\xbb"),
    Given::Data(b""),
    Given::Data(b"\x02\xcc"),
    Given::State(0),
    Given::State(1),
    Given::State(2),
    Given::State(3),
];

// What ends a list at this fragment, whatever stands before it.
fn ends_by(alloc: Global, given: Given) -> Option<String> {
    match given {
        Given::Data([]) => String::from_str(alloc, "EmptyFragment").ok(),
        Given::Data([0 | 1, ..]) | Given::State(1) => String::from_str(alloc, "").ok(),
        Given::Data([lead, ..]) => format!(in alloc; "BadLead({lead})").ok(),
        Given::State(2) => String::from_str(alloc, "Ended").ok(),
        Given::State(value) => format!(in alloc; "BadState({value})").ok(),
    }
}

// What ends a list at its first fragment that does; an empty text where none does.
fn ending_of(alloc: Global, list: &[Given]) -> Option<String> {
    for given in list {
        let ending = ends_by(alloc, *given)?;
        if !ending.is_empty() {
            return Some(ending);
        }
    }
    Some(String::new(alloc))
}

// The bytes of the last message of a list that nothing ends, or those of one that isn't whole.
fn joined(alloc: Global, list: &[Given]) -> Option<Vec<u8>> {
    let mut pieces = Vec::new(alloc);
    let mut is_whole = false;
    for given in list {
        if let Given::Data([lead, bytes @ ..]) = given {
            if is_whole {
                pieces = Vec::new(alloc);
            }
            pieces.extend_from_slice(bytes).ok()?;
            is_whole = *lead == 0;
        }
    }
    Some(pieces)
}

// The answer to the last of these fragments, by a division of the whole list.
fn divided(alloc: Global, list: &[Given]) -> Option<String> {
    let ending = ending_of(alloc, list)?;
    if !ending.is_empty() {
        return Some(ending);
    }
    match list.last()? {
        Given::Data([0, ..]) => message(alloc, &joined(alloc, list)?),
        Given::Data(_) => String::from_str(alloc, "More").ok(),
        Given::State(_) => String::from_str(alloc, "Started").ok(),
    }
}

/// Whether a joiner answers each fragment of a list as a division of the list up to there does.
fn is_divided(alloc: Global, list: &[Given]) -> Option<bool> {
    let mut joiner = Joiner::new(alloc);
    for (place, given) in list.iter().enumerate() {
        let answer = joiner.feed(&fragment(alloc, *given)?);
        let wanted = divided(alloc, list.get(..=place)?)?;
        if shown(alloc, &answer)?.as_str() != wanted.as_str() {
            return Some(false);
        }
    }
    Some(true)
}

#[test]
fn every_list_of_up_to_four_of_ten(rt: HostRuntime) {
    for number in 0..10_000usize {
        let list = [
            TABLE[number / 1000 % 10],
            TABLE[number / 100 % 10],
            TABLE[number / 10 % 10],
            TABLE[number % 10],
        ];
        assert!(rt; is_divided(rt.alloc(), &list) == Some(true), "at {number}");
    }
}
