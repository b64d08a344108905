//! The grammar of the language: which trees tokens spell, and its laws.
#![tactic(auto)]

pub mod theorems;
