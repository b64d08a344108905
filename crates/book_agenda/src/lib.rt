//! What may be done next in a world: messages that are not done, and what vats can learn, found without going over what is done.
#![tactic(auto)]

pub mod agenda;
mod waiting;
mod ways;
