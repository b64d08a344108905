//! What is kept of events by their names: where the entry of each stands, who followed it, and who wrote over what it left.
#![tactic(auto)]

pub mod followers;
pub mod heirs;
pub mod places;
