//! Worked cases of the judge and of packages that are imported, as tests alone, between toy key devices, and a device
//! that fails.
#![tactic(auto)]

#[cfg(test)]
mod imported_licence;
#[cfg(test)]
mod printed;
#[cfg(test)]
mod verdicts;
