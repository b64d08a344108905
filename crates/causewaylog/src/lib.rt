//! The log of a vat's live turns: records of what each got, sent and resolved, as a list in JSON.
#![tactic(auto)]

mod facts;
pub mod log;
mod turns;
