//! Runs sessions of the wallet's node (`wallet_core`) that standard input says, line by line, and prints in a line of each
//! what the wallet did. A line of standard input is a word and what it says:
//!
//! | Word | What follows |
//! |---|---|
//! | `store` | the store's bytes from here on, in parts: hexadecimal digits, or `zeros:` and a number of zero bytes |
//! | `rules` | nothing: the holder's rules are none from here on |
//! | `rule` | a rule more |
//! | `readers` | nothing: no reader is known from here on |
//! | `reader` | a trusted root more |
//! | `session` | the name of a new session |
//! | `told` | a line more of the device's tape: what it is asked, with what it tells |
//! | `data` | a fragment that comes, in hexadecimal digits |
//! | `state` | a value of State that comes |
//! | `close` | nothing: the session is run, the link is closed, and all that came comes once more |
//!
//! What is printed has parts, each after a bar: what is announced, what is replied to each fragment and how the session
//! has ended then (`-` where nothing), how it has ended once the link is closed, what is replied to all that comes once
//! more, the places of what was released, and how many questions the device was asked.
#![tactic(auto)]

mod case;
mod shown;

use case::Case;
use std::io;

fn main(rt: HostRuntime) -> io::Result<()> {
    let alloc = rt.alloc();
    let mut case = Case::new(alloc);
    for line in rt.lines(alloc) {
        let line = line?;
        if line.as_str() == "close" {
            let line = shown::session_line(alloc, &case)?;
            println!(rt; "{line}")?;
        } else if case.take(alloc, line.as_str()).is_none() {
            println!(rt; "no line of a session: {line}")?;
        }
    }
    Ok(())
}
