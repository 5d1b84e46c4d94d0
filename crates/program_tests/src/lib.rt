//! Worked cases that cross crates, as tests alone.
#![tactic(auto)]

#[cfg(test)]
mod draft;
#[cfg(test)]
mod issue;
#[cfg(test)]
mod line_files;
#[cfg(test)]
mod outcome;
#[cfg(test)]
mod released;
#[cfg(test)]
mod writing;
