//! Worked cases of the forms that are read and written, as tests alone: maps with named keys, keys, messages, issuer-signed
//! items, requests, rules, responses, security objects and stores.
#![tactic(auto)]

#[cfg(test)]
mod items;
#[cfg(test)]
mod keys;
#[cfg(test)]
mod merged_stores;
#[cfg(test)]
mod message_vectors;
#[cfg(test)]
mod messages;
#[cfg(test)]
mod named_maps;
#[cfg(test)]
mod objects;
#[cfg(test)]
mod request_faults;
#[cfg(test)]
mod response_vectors;
#[cfg(test)]
mod responses;
#[cfg(test)]
mod rules;
#[cfg(test)]
mod stores;
#[cfg(test)]
mod too_many;
#[cfg(test)]
mod wishes;
#[cfg(test)]
mod written_requests;
#[cfg(test)]
mod written_stores;
