//! The order of messages: what events do to fences, act by act, and that turns keep the order of messages.
#![tactic(auto)]

pub mod theorems;
