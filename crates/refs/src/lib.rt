//! What values lead to where promises were resolved: ends, settled forms and kinds.
#![tactic(auto)]

pub mod ends;
pub mod kinds;
pub mod resolve;
pub mod settling;
pub mod theorems;
