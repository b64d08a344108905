//! Gives programs whose names are resolved back as the trees that they were made from.
#![tactic(auto)]

mod unresolving;

pub use unresolving::unresolve;
