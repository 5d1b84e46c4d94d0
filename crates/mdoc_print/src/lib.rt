//! The texts that the program prints: names, numbers, and what is found of a package.
//!
//! The one contract: a line is, or gains, exactly the text of its definition.
#![tactic(auto)]

mod names;
mod numbers;
mod packages;

pub use names::put_name;
pub use numbers::put_number;
pub use packages::{package_lines, refusal_lines};
