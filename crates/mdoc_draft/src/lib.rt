//! The command `draft`: it prints the core of what the holder's rules release of a store for a reader's wishes. Its one
//! contract: the files are opened one by one, and then the line is that of the definition; what the laws say of this line is
//! that exactly the released items stand in it.
#![tactic(auto)]

mod answering;
mod command;
mod laws;
mod names;
mod response_writer;
mod row;

pub use command::draft;
pub use laws::{
    absent_document, agreement_is_least, denied_is_as_absent, each_missing_once,
    each_released_once, one_released, only_missing, only_released, released_exactly,
};
pub use row::is_draft;
