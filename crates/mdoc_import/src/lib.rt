//! The command `import`: it takes a package into the store. Its one contract: the files are opened one by one, the reader's
//! device is asked by the plan of the package's checks, and then the merged store is written and its lines printed; where
//! a document is refused, nothing is written.
#![tactic(auto)]

mod command;
mod row;

pub use command::import;
pub use row::is_import;
