//! The holder's rules: which elements of a document may be given to which reader.
//!
//! The one contract: the first rule that matches a reader's wish decides, and none denies.
#![tactic(auto)]

mod reader_pattern;
mod rule;
mod rule_fault;
mod rule_line;
mod rules;
mod sharing;
mod text_pattern;
mod wish;

pub use reader_pattern::ReaderPattern;
pub use rule::Rule;
pub use rule_fault::RuleFault;
pub use rule_line::read_flag;
pub use rules::Rules;
pub use sharing::types_are_send_and_sync;
pub use text_pattern::TextPattern;
pub use wish::Wish;
