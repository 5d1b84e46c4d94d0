//! Sessions of the wallet's node (`wallet_core`), as tests alone, by its public calls. Their bytes are those that another
//! implementation finds.
#![tactic(auto)]

#[cfg(test)]
mod licences;
#[cfg(test)]
mod limits;
#[cfg(test)]
mod lists;
#[cfg(test)]
mod sessions;
#[cfg(test)]
mod starts;
#[cfg(test)]
mod stores;
#[cfg(test)]
mod texts;
#[cfg(test)]
mod thousand;
