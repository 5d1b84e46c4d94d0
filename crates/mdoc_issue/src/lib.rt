//! The command `issue`: it makes a package of a spec. Its one contract: the spec is opened, the devices are asked and the
//! dice dealt by the plan of the package, and then the package is written and its lines printed.
#![tactic(auto)]

mod command;
mod issue_lines;
mod row;

pub use command::issue;
pub use row::is_issue;
