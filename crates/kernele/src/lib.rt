//! The trees of the language and their canonical spelling.
#![tactic(auto)]

mod printing;
pub mod tree;

pub use printing::print;
