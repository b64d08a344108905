//! Programs whose names are resolved, what it means that each noun has its position in the frame where it is evaluated, and
//! the index of an object's methods.
#![tactic(auto)]

pub mod code;
pub mod index;
pub mod sameness;
pub mod theorems;
