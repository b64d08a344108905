//! Why calls of the book are refused, and the checks that a journal alone decides.
#![tactic(auto)]

pub mod checks;
pub mod fault;
