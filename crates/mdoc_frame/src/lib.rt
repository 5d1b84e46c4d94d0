//! What all commands of the program `mdoc` share: their words, the files that they read, the lines that they print, and how a
//! run ends. Its one contract: steps that are done one after the other are a run by its outcome, whatever the work of the
//! command is.
#![tactic(auto)]

mod file_fault;
mod form;
mod form_check;
mod laws;
mod lines;
mod open_document;
mod package_form;
mod pair;
mod pair_kind;
mod reading;
mod role;
mod roots_form;
mod rules_form;
mod spec_form;
mod status;
mod store_form;
mod wish_line;
mod wishes;
mod wishes_form;
mod words;

pub use file_fault::FileFault;
pub use form::{Form, read_file};
pub use form_check::FormCheck;
pub use laws::words_in_form;
pub use lines::print_lines;
pub use package_form::PackageFile;
pub use pair::Pair;
pub use pair_kind::PairKind;
pub use role::Role;
pub use status::Status;
pub use wishes::read_wishes;
pub use words::{is_in_form, value_of};
