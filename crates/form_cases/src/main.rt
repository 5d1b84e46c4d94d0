//! Says of bytes that standard input holds, a case a line, how each is read as a form, beside what is wanted of it. A line of
//! standard input is a word and what it says:
//!
//! | Word | What follows |
//! |---|---|
//! | `#` | a remark |
//! | `key`, `signature`, `code`, `chain`, `item`, `object`, `request`, `response` | what is wanted, a bar, and bytes in hexadecimal digits |
//! | `before` | the bytes of a request up to the authentication that ends it |
//! | `root` | a trusted root of readers more |
//! | `told` | a line more of the device's tape: what it is asked, with what it tells |
//! | `reader` | what is wanted, a bar, the moment, the transcript of the session and the authentication of the second document |
//!
//! What is said of bytes is the first check that fails, or `Ok`, of a response only where its bytes are told with each damage; of a chain its digits, or `-`; of a request's two readers, one
//! after the other, the name by which each is known (`-` for none) or the fault, with the number of questions asked.
#![tactic(auto)]

mod case;
mod damages;
mod forms;
mod readers;

use case::Held;
use std::io;

fn main(rt: HostRuntime) -> io::Result<()> {
    let alloc = rt.alloc();
    let mut held = Held::new(alloc);
    for line in rt.lines(alloc) {
        let line = line?;
        match held.take(alloc, line.as_str()) {
            Some(said) if said.is_empty() => {}
            Some(said) => println!(rt; "{said}")?,
            None => println!(rt; "no case: {line}")?,
        }
    }
    Ok(())
}
