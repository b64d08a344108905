//! Evaluation: how an expression ends, and what it does to the state of its vat.
//!
//! Each function has as its contract that what it gives has a derivation by the rules in `eval_rules`.
#![tactic(auto)]

pub mod calling;
pub mod control;
pub mod eval;
mod right;
mod sending;
