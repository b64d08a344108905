//! Names of events and of what they make, keys of cells, and the texts that programs share.
#![tactic(auto)]

pub mod cells;
pub mod names;
pub mod quote;
pub mod reference;
pub mod text;
pub mod theorems;
