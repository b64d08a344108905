//! What signs stand for where they stand, and why reading stops.
#![tactic(auto)]

pub mod operator;
pub mod stop;
