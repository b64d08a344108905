//! The entries of the journal, and what it tells of them.
#![tactic(auto)]

pub mod entry;
pub mod journal;
pub mod linking;
pub mod settled;
