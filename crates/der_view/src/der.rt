//! A view of one element.

ghost use Rattle.std.specs.Prelude.{◌≡◌, ◌+◌, ◌<◌, ◌≤◌, ◌^◌, length, Ok, IsOk, IfOk, MatchResult};
ghost use Rattle.der_view.specs.Element.{AreBytes, IsElement};
ghost use Rattle.der_view.specs.Fault.{IsFault};
ghost use Rattle.der_view.specs.Reading.{Gives, reads};
ghost use Rattle.der_view.specs.Parts.{AreParts, der, first_part, body_part, parts_of};

use crate::der_fault::DerFault;
use crate::der_kind::DerKind;
use crate::heads::read_first;
use crate::parts::Parts;

/// One element (X.690, 8.1.1): the bytes that spell it, and their place in the bytes first read.
#[derive(Clone, Copy)]
pub struct Der<'a> {
    pub(crate) slice: &'a [u8],
    pub(crate) at: usize,
    ghost spelled: { IsOk (reads slice.now) },
    ghost in_range: { at + length slice.now < 2 ^ 64 },
}

impl<'a> Der<'a> {
    ghost use Rattle.der_view.specs.Der.{part, tag, body};
    ghost use Rattle.der_view.specs.PartsLeft.{left};

    /// The element that all of the bytes spell (X.690, 8.1 and 10.1): a tag of one byte, the length
    /// in the definite form with the fewest bytes, at most four after its first, and the body. Else
    /// the first fault in byte order.
    pub fn read(bytes: &'a [u8]) -> Result<Der<'a>, DerFault>
        ensures exact { MatchResult result (λ d. IsElement bytes.now (tag d) (body d)) (λ fault. IsFault bytes.now fault) }
        ensures whole { Gives part result (der bytes.now) }
    {
        match Der::first(bytes, 0) {
            Ok((element, [])) => Ok(element),
            Ok((element, _)) => Err(DerFault {
                kind: DerKind::Trailing,
                at: element.slice.len(),
            }),
            Err(fault) => Err(fault),
        }
    }

    /// The tag: class, form and number in one byte (X.690, 8.1.2).
    pub fn tag(&self) -> u8
        ensures { result ≡ tag self.now }
    {
        split(self.slice).0
    }

    /// The body, which X.690 calls the contents (8.1.4).
    pub fn body(&self) -> &'a [u8]
        ensures { result.now ≡ body self.now }
    {
        split(self.slice).1
    }

    /// The slice that spells the element.
    pub fn raw(&self) -> &'a [u8]
        ensures { result.now ≡ (part self.now).bytes }
    {
        self.slice
    }

    /// The place of the tag, as an offset in the bytes first read.
    pub fn at(&self) -> usize
        ensures { result ≡ (part self.now).at }
    {
        self.at
    }

    /// The elements that follow one another in the body (X.690, 8.1.4), each or its fault,
    /// after which nothing comes.
    pub fn parts(&self) -> Parts<'a>
        ensures exact { AreParts (body_part (part self.now)) (left result) }
        ensures place { left result ≡ parts_of (part self.now) }
    {
        let (_, rest) = split(self.slice);
        let at = self.at + (self.slice.len() - rest.len());
        Parts { rest, at }
    }

    /// The element at the front of bytes, and what follows it.
    pub(crate) fn first(bytes: &'a [u8], at: usize) -> Result<(Der<'a>, &'a [u8]), DerFault>
        requires in_range { at + length bytes.now < 2 ^ 64 }
        ensures read { Gives (λ x. (part x.0, x.1.now)) result (first_part (record { at = at; bytes = bytes.now })) }
        ensures len { IfOk result (λ x. (part x.0).at + length (part x.0).bytes + length x.1.now ≡ at + length bytes.now) }
    {
        match read_first(bytes) {
            Ok(first) => {
                let (slice, _) = bytes.split_at(bytes.len() - first.rest.len());
                Ok((Der { slice, at }, first.rest))
            }
            Err(kind) => Err(DerFault { kind, at }),
        }
    }
}

/// The tag and the body of an element that was read.
fn split(element: &[u8]) -> (u8, &[u8])
    requires { IsOk (reads element.now) }
    ensures read { reads element.now ≡ Ok (result.0, result.1.now) }
    ensures shorter { length result.1.now ≤ length element.now }
    ensures bytes { AreBytes result.1.now }
{
    match read_first(element) {
        Ok(first) => (first.tag, first.body),
        Err(_) => unreachable!(),
    }
}
