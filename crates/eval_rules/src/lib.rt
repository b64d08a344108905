//! The rules of evaluation, the laws that hold by them, and what evaluations end with: results, what is wanted of them,
//! escapes and the scopes of blocks.
//!
//! The rules stand in `specs/Rules.antt`. What a function here gives or leaves is what the rules say of its part.
#![tactic(auto)]

pub mod blocks;
pub mod end;
pub mod entry;
pub mod escapes;
pub mod halting;
pub mod local;
pub mod outbox;
pub mod publications;
pub mod results;
pub mod theorems;
pub mod wanted;
pub mod working;
