//! What is commanded: input is cut into lines, lines into words, and a line and the lines of its script say a command.
#![tactic(auto)]

pub mod command;
pub mod numbers;
pub mod script;
pub mod theorems;
mod words;

pub use numbers::{ObjectName, PromiseName, events_in};
pub use words::all_words;
