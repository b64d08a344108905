//! Lines of a reader, taken one after another, and what is given to a writer, with a count of the calls that failed.
#![tactic(auto)]

pub mod counted;
mod held;
pub mod line;
pub mod lines;
pub mod outlet;
pub mod theorems;
