// The limits of one message, at their bounds.
use ble_fragments::{Fed, JoinFault, Joiner};
use mdoc_outside::{Fragment, Octets};
use std::alloc::Global;

// A fragment with this lead and so many bytes.
fn filled(alloc: Global, lead: u8, count: usize) -> Option<Fragment> {
    let mut bytes = vec![in alloc; lead].ok()?;
    let more = vec![in alloc; 0xaa; count].ok()?;
    bytes.extend_from_slice(&more).ok()?;
    Some(Fragment::Data(Octets::from_vec(bytes)))
}

// Whether a joiner takes so many equal fragments as parts of one message.
fn takes(joiner: &mut Joiner, part: &Fragment, count: usize) -> bool {
    for _ in 0..count {
        if !matches!(joiner.feed(part), Ok(Fed::More)) {
            return false;
        }
    }
    true
}

// How long a message is that ends by a fragment, or its fault.
fn ends_by(joiner: &mut Joiner, last: &Fragment) -> Option<Result<usize, JoinFault>> {
    match joiner.feed(last) {
        Ok(Fed::Message(message)) => Some(Ok(message.as_slice().len())),
        Ok(_) => None,
        Err(fault) => Some(Err(fault)),
    }
}

// How long a message is of 1048 fragments of a thousand bytes and a last one, or its fault.
fn end_of_many(alloc: Global, last: usize) -> Option<Result<usize, JoinFault>> {
    let mut joiner = Joiner::new(alloc);
    let thousand = filled(alloc, 1, 1000)?;
    if !takes(&mut joiner, &thousand, 1048) {
        return None;
    }
    ends_by(&mut joiner, &filled(alloc, 0, last)?)
}

#[test]
fn bytes_of_a_message(rt: HostRuntime) {
    for (last, wanted) in [
        (575, Ok(1_048_575)),
        (576, Ok(1_048_576)),
        (577, Err(JoinFault::TooLong)),
    ] {
        assert!(rt; end_of_many(rt.alloc(), last) == Some(wanted), "{last}");
    }
}

// Whether 65,535 fragments may still be the message's with a last one, or with one more but not with two.
fn has_limit_of_fragments(alloc: Global) -> Option<bool> {
    let one = filled(alloc, 1, 1)?;
    let mut joiner = Joiner::new(alloc);
    let are_taken = takes(&mut joiner, &one, 65_535);
    let mut whole = joiner.again().ok()?;
    let is_whole = matches!(ends_by(&mut whole, &filled(alloc, 0, 1)?), Some(Ok(_)));
    let is_more = takes(&mut joiner, &one, 1);
    let is_long = ends_by(&mut joiner, &one) == Some(Err(JoinFault::TooLong));
    let stays = ends_by(&mut joiner, &filled(alloc, 0, 0)?) == Some(Err(JoinFault::TooLong));
    Some(are_taken && is_whole && is_more && is_long && stays)
}

#[test]
fn fragments_of_a_message(rt: HostRuntime) {
    assert!(rt; has_limit_of_fragments(rt.alloc()) == Some(true));
}
