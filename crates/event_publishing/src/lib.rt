//! What turns publish: in the world of a run no promise is published twice.
#![tactic(auto)]

pub mod theorems;
