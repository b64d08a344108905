//! The tickets that are out, by their numbers.
#![tactic(auto)]

pub mod desk;
