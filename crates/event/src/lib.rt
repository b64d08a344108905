//! What events are and do: the six kinds, with the cells that each touches and writes; when a message may be delivered; the deeds of
//! events, by which the order of messages is kept.
#![tactic(auto)]

pub mod effects;
pub mod forwarding;
pub mod found;
pub mod learning;
mod left;
mod making;
mod noting;
pub mod ready;
pub mod theorems;
pub mod walks;
