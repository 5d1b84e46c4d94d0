//! The lines of standard input, one by one.

use crate::{forms, readers};
use std::alloc::Global;

/// What the lines so far say of the readers that come.
#[derive(Drop)]
pub(crate) struct Held {
    /// A request up to the authentication that ends it.
    pub before: Vec<u8>,
    /// The file of the trusted roots of readers.
    pub roots: Vec<u8>,
    /// The tape of the device.
    pub tape: Vec<u8>,
}

/// Adds a line to a file.
fn add_line(file: &mut Vec<u8>, line: &str) -> Option<()> {
    file.extend_from_slice(line.as_bytes()).ok()?;
    file.push(b'\n').ok()
}

impl Held {
    /// Nothing that is said.
    pub(crate) fn new(alloc: Global) -> Held {
        Held {
            before: Vec::new(alloc),
            roots: Vec::new(alloc),
            tape: Vec::new(alloc),
        }
    }

    /// What is printed after a line, if anything; nothing where the line is outside its form, or memory is wanting.
    pub(crate) fn take(&mut self, alloc: Global, line: &str) -> Option<String> {
        let (word, said) = line.split_once(' ').unwrap_or((line, ""));
        match word {
            "#" => {}
            "before" => self.before = hex::decode(alloc, said.as_bytes()).ok()?,
            "root" => add_line(&mut self.roots, line)?,
            "told" => add_line(&mut self.tape, said)?,
            _ => return self.case(alloc, word, said),
        }
        Some(String::new(alloc))
    }

    /// The line of a case: what is wanted, and what came out.
    fn case(&mut self, alloc: Global, word: &str, said: &str) -> Option<String> {
        let (wanted, given) = said.split_once(" | ")?;
        let found = match word {
            "reader" => self.readers(alloc, given)?,
            _ => forms::said_of(alloc, word, given)?,
        };
        format!(in alloc; "{word} {wanted} | {found}").ok()
    }

    /// What is said of the readers of a request, after which the tape begins anew.
    fn readers(&mut self, alloc: Global, given: &str) -> Option<String> {
        let found = readers::said_of(alloc, self, given)?;
        self.tape = Vec::new(alloc);
        Some(found)
    }
}
