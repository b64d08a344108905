//! What came of events, and what a set of them lacks for an undo or a redo.
#![tactic(auto)]

pub mod causes;
pub mod cone;
mod crossing;
mod missing;
pub mod names;
mod parting;
pub mod selection;
pub mod theorems;
mod versions;
