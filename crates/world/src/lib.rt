//! The plain run of events: from the empty world, one after another.
#![tactic(auto)]

pub mod run;
pub mod step;
