//! What an evaluation does with promises and messages: ends, sends, whens, resolvers, and what a reference is.
//!
//! The rules stand in `eval_rules/specs/Doings.antt`. Each function does its part to the vat's state under the turn, as the crate `sends` has
//! it, and puts what was made into the turn's outbox.
#![tactic(auto)]

pub mod calls;
pub mod ends;
pub mod outgoing;
pub mod places;
mod posting;
pub mod promises;
pub mod references;
mod stops;
pub mod whens;
