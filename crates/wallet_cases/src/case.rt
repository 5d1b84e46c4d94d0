//! A session as it is said: what its wallet is made with, what its device tells and what comes.

use mdoc_outside::{Fragment, Octets};
use std::alloc::Global;

/// A session.
#[derive(Drop)]
pub(crate) struct Case {
    /// What it is.
    pub name: String,
    /// The store's file.
    pub store: Vec<u8>,
    /// The file of the holder's rules.
    pub rules: Vec<u8>,
    /// The file of the trusted roots of readers.
    pub readers: Vec<u8>,
    /// The tape of the device.
    pub tape: Vec<u8>,
    /// What comes, in order.
    pub fragments: Vec<Fragment>,
}

/// The bytes of a file in parts.
fn bytes_of(alloc: Global, parts: &str) -> Option<Vec<u8>> {
    let mut bytes = Vec::new(alloc);
    for part in parts.split(' ') {
        let part = match part.strip_prefix("zeros:") {
            Some(count) => vec![in alloc; 0; count.parse::<usize>().ok()?].ok()?,
            None => hex::decode(alloc, part.as_bytes()).ok()?,
        };
        bytes.extend_from_slice(&part).ok()?;
    }
    Some(bytes)
}

/// Adds a line to a file.
fn add_line(file: &mut Vec<u8>, line: &str) -> Option<()> {
    file.extend_from_slice(line.as_bytes()).ok()?;
    file.push(b'\n').ok()
}

/// The fragment of bytes in hexadecimal digits.
fn data_of(alloc: Global, digits: &str) -> Option<Fragment> {
    let bytes = hex::decode(alloc, digits.as_bytes()).ok()?;
    Some(Fragment::Data(Octets::from_vec(bytes)))
}

/// The fragment of a value of State.
fn state_of(value: &str) -> Option<Fragment> {
    Some(Fragment::State(value.parse::<u8>().ok()?))
}

impl Case {
    /// A session of which nothing is said.
    pub(crate) fn new(alloc: Global) -> Case {
        Case {
            name: String::new(alloc),
            store: Vec::new(alloc),
            rules: Vec::new(alloc),
            readers: Vec::new(alloc),
            tape: Vec::new(alloc),
            fragments: Vec::new(alloc),
        }
    }

    /// Takes what a line says; nothing where it says nothing of a session, or memory is wanting.
    pub(crate) fn take(&mut self, alloc: Global, line: &str) -> Option<()> {
        let (word, said) = line.split_once(' ').unwrap_or((line, ""));
        match word {
            "store" => self.store = bytes_of(alloc, said)?,
            "rules" => self.rules = Vec::new(alloc),
            "rule" => add_line(&mut self.rules, said)?,
            "readers" => self.readers = Vec::new(alloc),
            "reader" => add_line(&mut self.readers, said)?,
            "session" => self.begin(alloc, said)?,
            "told" => add_line(&mut self.tape, said)?,
            "data" => self.fragments.push(data_of(alloc, said)?).ok()?,
            "state" => self.fragments.push(state_of(said)?).ok()?,
            _ => return None,
        }
        Some(())
    }

    /// Begins a session by its name, with an empty tape and nothing that comes.
    fn begin(&mut self, alloc: Global, name: &str) -> Option<()> {
        self.name = String::from_str(alloc, name).ok()?;
        self.tape = Vec::new(alloc);
        self.fragments = Vec::new(alloc);
        Some(())
    }
}
