//! Says of what standard input holds, a case a line, how the base crates read it, beside what is wanted. A line of standard
//! input is a word and what it says; of a case that is what is wanted, a bar, and what is given, with bytes in hexadecimal
//! digits:
//!
//! | Word | Given | What is said of it |
//! |---|---|---|
//! | `#` | | a remark |
//! | `cbor` | bytes | the first fault of an item of CBOR, and its place |
//! | `number` | bytes | the number that is not negative, and the number of either sign |
//! | `text` | bytes | the text |
//! | `kind` | bytes | which readers tell of the item |
//! | `element` | bytes | the first fault of an element of DER, and its place |
//! | `row` | a name | the row of the table of elements, and whether it is mandatory |
//! | `fits` | a name and bytes | the fault of a value for the row of that name |
//! | `store` | bytes | the first fault of a store, and its place |
//! | `chosen` | bytes | of a store the place of the copy to show of the document of type `d`, and its key |
//! | `root` | | a trusted root, a line of the file of roots |
//! | `certificate` | bytes | the first fault and its place, or issuer, subject, the key's coordinates, the times, whether it signs documents, and the message and the signature that the root is asked about |
//!
//! `Ok` stands where there is no fault.
#![tactic(auto)]

mod case;
mod certificates;
mod elements;
mod items;
mod stores;

use case::Held;
use std::io;

fn main(rt: HostRuntime) -> io::Result<()> {
    let alloc = rt.alloc();
    let mut held = Held::new(alloc);
    for line in rt.lines(alloc) {
        let line = line?;
        match held.take(alloc, line.as_str()) {
            Some(said) if said.is_empty() => {}
            Some(said) => println!(rt; "{said}")?,
            None => println!(rt; "no case: {line}")?,
        }
    }
    Ok(())
}
