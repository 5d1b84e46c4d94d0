//! Who asks: the readers of a request for two documents, under trusted roots.

use crate::case::Held;
use cbor_view::View;
use cert_view::Roots;
use doc_request::{DocAsk, Request, known_reader};
use key_device::{Recorder, ReplayDevice};
use std::alloc::Global;

/// A moment, a transcript and an authentication, as words.
#[derive(Clone, Copy)]
struct Given<'a> {
    moment: i64,
    transcript: &'a str,
    auth: &'a str,
}

fn given_of(said: &str) -> Option<Given<'_>> {
    let (moment, rest) = said.split_once(' ')?;
    let (transcript, auth) = rest.split_once(' ')?;
    let moment = moment.parse::<i64>().ok()?;
    Some(Given {
        moment,
        transcript,
        auth,
    })
}

/// What is said of the two readers.
pub(crate) fn said_of(alloc: Global, held: &Held, said: &str) -> Option<String> {
    let given = given_of(said)?;
    let request = request_of(alloc, held, given.auth)?;
    let transcript = hex::decode(alloc, given.transcript.as_bytes()).ok()?;
    let first = said_at(alloc, held, &request, 0, &transcript, given.moment)?;
    let second = said_at(alloc, held, &request, 1, &transcript, given.moment)?;
    format!(in alloc; "{first}, {second}").ok()
}

/// The request with an authentication in hexadecimal digits.
fn request_of(alloc: Global, held: &Held, auth: &str) -> Option<Vec<u8>> {
    let mut bytes = held.before.clone().ok()?;
    let auth = hex::decode(alloc, auth.as_bytes()).ok()?;
    bytes.extend_from_slice(&auth).ok()?;
    Some(bytes)
}

fn document_of(bytes: &[u8], number: usize) -> Option<DocAsk<'_>> {
    let view = View::read(bytes).ok()?;
    Request::read(view).ok()?.documents().nth(number)
}

/// What is said of the reader of the document at a place, by a device of its own.
fn said_at(
    alloc: Global,
    held: &Held,
    request: &[u8],
    place: usize,
    transcript: &[u8],
    moment: i64,
) -> Option<String> {
    let document = document_of(request, place)?;
    let roots = Roots::read(alloc, &held.roots).ok()?;
    let mut device = Recorder::new(alloc, ReplayDevice::read(alloc, &held.tape).ok()?);
    let known = known_reader(alloc, &document, transcript, &roots, moment, &mut device);
    let asked = device.talk().len();
    match known {
        Ok(Some(name)) => format!(in alloc; "{name} {asked}").ok(),
        Ok(None) => format!(in alloc; "- {asked}").ok(),
        Err(fault) => format!(in alloc; "{fault:?} {asked}").ok(),
    }
}
