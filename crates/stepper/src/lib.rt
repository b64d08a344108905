//! Answers commands on vats: one reply for each.
#![tactic(auto)]

mod ended;
mod engine;
mod fault;
mod input;
mod reply;
pub mod theorems;
mod words;

pub use ended::{Ended, status};
pub use engine::{Limits, STACK, Summary, run};
pub use fault::Fault;
