//! Quick ways where integers, an ejector, or an object and its arguments are at hand: they take no cell that was not touched before.
//!
//! What a function here gives or leaves is what the rules of evaluation say of its part.
#![tactic(auto)]

pub mod direct;
mod growing;
pub mod quick;
pub mod returns;
