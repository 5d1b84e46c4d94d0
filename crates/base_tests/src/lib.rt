//! Tests of the base crates by their public calls: vectors from outside, printed bytes, and each call
//! once on its happy path.
#![tactic(auto)]

#[cfg(test)]
mod cabinets;
#[cfg(test)]
mod cbor_views;
#[cfg(test)]
mod certificate_checks;
#[cfg(test)]
mod certificates;
#[cfg(test)]
mod ciphers;
#[cfg(test)]
mod der_elements;
#[cfg(test)]
mod dice;
#[cfg(test)]
mod element_table;
#[cfg(test)]
mod keyed_hashes;
#[cfg(test)]
mod line_files;
#[cfg(test)]
mod replayed_devices;
#[cfg(test)]
mod roots_files;
#[cfg(test)]
mod sinks;
#[cfg(test)]
mod small_types;
#[cfg(test)]
mod stores;
#[cfg(test)]
mod written_certificates;
