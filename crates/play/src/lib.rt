// Plays and their logs: what the running controller did, written down, read again and replayed.
#![tactic(auto)]

pub mod log;
pub mod recording;
