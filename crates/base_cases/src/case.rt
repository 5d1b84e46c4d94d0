//! The lines of standard input, one by one.

use crate::{certificates, elements, items, stores};
use std::alloc::Global;

/// What the lines so far say of the roots.
#[derive(Drop)]
pub(crate) struct Held {
    /// The file of the trusted roots.
    pub roots: Vec<u8>,
}

/// Adds a line to a file.
fn add_line(file: &mut Vec<u8>, line: &str) -> Option<()> {
    file.extend_from_slice(line.as_bytes()).ok()?;
    file.push(b'\n').ok()
}

impl Held {
    /// Nothing that is said.
    pub(crate) fn new(alloc: Global) -> Held {
        Held {
            roots: Vec::new(alloc),
        }
    }

    /// What is printed after a line, if anything; nothing where the line is outside its form, or memory is wanting.
    pub(crate) fn take(&mut self, alloc: Global, line: &str) -> Option<String> {
        let (word, said) = line.split_once(' ').unwrap_or((line, ""));
        match word {
            "#" => {}
            "root" => add_line(&mut self.roots, line)?,
            _ => return self.case(alloc, word, said),
        }
        Some(String::new(alloc))
    }

    /// The line of a case: what is wanted, and what came out.
    fn case(&self, alloc: Global, word: &str, said: &str) -> Option<String> {
        let (wanted, given) = said.split_once("| ")?;
        let found = self.found(alloc, word, given)?;
        format!(in alloc; "{word} {wanted}| {found}").ok()
    }

    fn found(&self, alloc: Global, word: &str, given: &str) -> Option<String> {
        match word {
            "row" => elements::row_of_name(alloc, given),
            "fits" => elements::fit_of(alloc, given),
            _ => self.found_of_bytes(alloc, word, &hex::decode(alloc, given.as_bytes()).ok()?),
        }
    }

    fn found_of_bytes(&self, alloc: Global, word: &str, bytes: &[u8]) -> Option<String> {
        match word {
            "element" => items::element_of(alloc, bytes),
            "store" => stores::store_of(alloc, bytes),
            "chosen" => stores::chosen_of(alloc, bytes),
            "certificate" => certificates::certificate_of(alloc, &self.roots, bytes),
            _ => items::item_of(alloc, word, bytes),
        }
    }
}
