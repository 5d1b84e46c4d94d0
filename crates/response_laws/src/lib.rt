//! That a response which was written is read as it was given (DeviceResponse; ISO/IEC 18013-5, 8.3.2.1.2.2): laws of
//! the definitions that `doc_response` writes and reads by.
#![tactic(auto)]

mod laws;

pub use laws::{calls_give_spellings, written_response_is_read};
