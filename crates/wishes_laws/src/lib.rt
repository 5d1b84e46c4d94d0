//! Wishes files as whole lists of lines. Its one contract: the laws that the reading of a wishes file, which
//! `mdoc_frame` defines line by line, gives documents exactly where the lines of the file are those of
//! the documents, and else names the first line after which no lines make it such a file.
#![tactic(auto)]

mod laws;

pub use laws::{exceeded_limit, first_bad_line, is_wishes_file};
