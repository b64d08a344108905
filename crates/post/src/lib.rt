//! Messages to vats: what is delivered, where a message is, what promises are published as, and what is known of a vat by its name.
#![tactic(auto)]

pub mod call;
pub mod delivery;
pub mod earlier;
pub mod message;
pub mod program;
pub mod published;
pub mod vat;
pub mod when;
