//! Cells with their contents and last writers, and the records that exchange with them.
#![tactic(auto)]

pub mod few;
pub mod laws;
pub mod listing;
pub mod store;
pub mod swaps;
pub mod touches;
