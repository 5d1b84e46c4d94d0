//! Requests that are written.

ghost use Rattle.std.specs.Prelude.{◌≡◌, ◌↔◌, IsTrue, IfSome, length};
ghost use Rattle.doc_request.specs.Draft.{IsName, IsRequest};
ghost use Rattle.doc_request.specs.Written.{IsAuthentication};

use cbor_view::View;
use consent::Wish;
use cose_msgs::write_sign1;
use doc_request::{DocDraft, Request, RequestDraft, WishDraft, write_request};
use mdoc_outside::{Octets, Rows};
use std::alloc::Global;
use std::str;
use std::test::*;

/// A request for element `a` of namespace `n` of a document of type `d`, and the same with a reader's authentication;
/// `tests/vectors/requests` writes both.
const WRITTEN: &[u8] =
    b"\xa2\x67\x76\x65\x72\x73\x69\x6f\x6e\x63\x31\x2e\x30\x6b\x64\x6f\x63\x52\x65\x71\x75\x65\x73\x74\x73\x81\xa1\x6c\x69\x74\x65\x6d\x73\x52\x65\x71\x75\x65\x73\x74\xd8\x18\x58\x1d\xa2\x67\x64\x6f\x63\x54\x79\x70\x65\x61\x64\x6a\x6e\x61\x6d\x65\x53\x70\x61\x63\x65\x73\xa1\x61\x6e\xa1\x61\x61\xf4";

const SIGNED: &[u8] =
    b"\xa2\x67\x76\x65\x72\x73\x69\x6f\x6e\x63\x31\x2e\x30\x6b\x64\x6f\x63\x52\x65\x71\x75\x65\x73\x74\x73\x81\xa2\x6c\x69\x74\x65\x6d\x73\x52\x65\x71\x75\x65\x73\x74\xd8\x18\x58\x1d\xa2\x67\x64\x6f\x63\x54\x79\x70\x65\x61\x64\x6a\x6e\x61\x6d\x65\x53\x70\x61\x63\x65\x73\xa1\x61\x6e\xa1\x61\x61\xf4\x6a\x72\x65\x61\x64\x65\x72\x41\x75\x74\x68\x84\x43\xa1\x01\x26\xa1\x18\x21\x43\x01\x02\x03\xf6\x58\x40\x00\x01\x02\x03\x04\x05\x06\x07\x08\x09\x0a\x0b\x0c\x0d\x0e\x0f\x10\x11\x12\x13\x14\x15\x16\x17\x18\x19\x1a\x1b\x1c\x1d\x1e\x1f\x20\x21\x22\x23\x24\x25\x26\x27\x28\x29\x2a\x2b\x2c\x2d\x2e\x2f\x30\x31\x32\x33\x34\x35\x36\x37\x38\x39\x3a\x3b\x3c\x3d\x3e\x3f";

fn is_name(name: &Octets) -> bool
    ensures { IsTrue result ↔ IsName name.now }
{
    name.as_slice().len() <= 128 && str::from_utf8(name.as_slice()).is_ok()
}

/// An authentication as it is written, where its chain is short enough.
fn auth(alloc: Global, chain: &[u8], signature: &[u8; 64]) -> Option<Octets>
    ensures { IfSome result (λ auth. IsAuthentication auth) }
{
    if chain.len() > 8192 {
        return None;
    }
    write_sign1(alloc, Some(chain), None, signature).ok()
}

/// Whether it is a request for one element of one document.
fn asks_for_one(asks: &RequestDraft) -> bool
    ensures request { IsTrue result → IsRequest asks.now.documents }
    ensures one { IsTrue result → length asks.now.documents ≡ 1 }
{
    let [document] = asks.documents.as_slice() else {
        return false;
    };
    let [wish] = document.wishes.as_slice() else {
        return false;
    };
    is_name(&document.doc_type) && is_name(&wish.ns) && is_name(&wish.name)
}

/// The bytes of such a request, without authentications.
fn written(alloc: Global, asks: &RequestDraft) -> Option<Octets> {
    if !asks_for_one(asks) {
        return None;
    }
    write_request(alloc, asks, &[]).ok()
}

/// The same with an authentication of that chain and signature.
#[tactic(auto, using(crate::proofs::OneAuthentication::one_authentication))]
fn written_signed(
    alloc: Global,
    asks: &RequestDraft,
    chain: &[u8],
    signature: &[u8; 64],
) -> Option<Octets> {
    if !asks_for_one(asks) {
        return None;
    }
    let auths = [auth(alloc, chain, signature)?];
    write_request(alloc, asks, &auths).ok()
}

fn wish(alloc: Global) -> Option<WishDraft> {
    Some(WishDraft {
        ns: Octets::copy_of(alloc, b"n").ok()?,
        name: Octets::copy_of(alloc, b"a").ok()?,
        retain: false,
    })
}

fn document(alloc: Global) -> Option<DocDraft> {
    Some(DocDraft {
        doc_type: Octets::copy_of(alloc, b"d").ok()?,
        wishes: Rows::from_vec(vec![in alloc; wish(alloc)?].ok()?),
    })
}

fn asks(alloc: Global) -> Option<RequestDraft> {
    Some(RequestDraft {
        documents: Rows::from_vec(vec![in alloc; document(alloc)?].ok()?),
    })
}

fn bytes_from_zero() -> [u8; 64] {
    let mut bytes = [0; 64];
    for (place, byte) in bytes.iter_mut().enumerate() {
        *byte = (place % 256) as u8;
    }
    bytes
}

fn is_written(alloc: Global) -> Option<bool> {
    let bytes = written(alloc, &asks(alloc)?)?;
    Some(bytes.as_slice() == WRITTEN)
}

fn is_written_signed(alloc: Global) -> Option<bool> {
    let bytes = written_signed(alloc, &asks(alloc)?, &[1, 2, 3], &bytes_from_zero())?;
    Some(bytes.as_slice() == SIGNED)
}

/// Whether a wish is for that element, without retaining it.
fn is_the_wish(wish: &Wish<'_>) -> bool {
    wish.doc_type == "d" && wish.ns == "n" && wish.name == "a" && !wish.retain
}

/// Whether the request has that wish of its document 0 and no other.
fn is_read_as_the_wish(bytes: &[u8]) -> Option<bool> {
    let view = View::read(bytes).ok()?;
    let mut wishes = Request::read(view).ok()?.wishes();
    let (place, wish) = wishes.next()?;
    Some(place == 0 && is_the_wish(&wish) && wishes.next().is_none())
}

#[test]
fn written_request_is_read(rt: HostRuntime) {
    assert!(rt; is_written(rt.alloc()) == Some(true));
    assert!(rt; is_read_as_the_wish(WRITTEN) == Some(true));
    assert!(rt; is_written_signed(rt.alloc()) == Some(true));
    assert!(rt; is_read_as_the_wish(SIGNED) == Some(true));
}
