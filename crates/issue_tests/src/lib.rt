//! Worked cases of spec files and of issuing, as tests alone: each check at its line, the order of the checks, the limits,
//! the values as CBOR, packages between toy key devices, and devices and dice that fail.
#![tactic(auto)]

#[cfg(test)]
mod packages;
#[cfg(test)]
mod spec_faults;
#[cfg(test)]
mod spec_limits;
#[cfg(test)]
mod spec_values;
