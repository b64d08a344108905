//! The nodes of trees, and what a value is given to.
#![tactic(auto)]

pub mod nodes;
pub mod target;
