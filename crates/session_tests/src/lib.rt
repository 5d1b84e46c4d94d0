//! Tests of sessions by their public calls, as tests alone: ends between toy key devices, device engagement, its text and
//! its file, the transcript of a session, and fragments.
#![tactic(auto)]

#[cfg(test)]
mod endings;
#[cfg(test)]
mod ends;
#[cfg(test)]
mod engagement_files;
#[cfg(test)]
mod engagement_texts;
#[cfg(test)]
mod engagements;
#[cfg(test)]
mod fragment_cuts;
#[cfg(test)]
mod fragment_limits;
#[cfg(test)]
mod joined_fragments;
#[cfg(test)]
mod rounds;
#[cfg(test)]
mod transcripts;
