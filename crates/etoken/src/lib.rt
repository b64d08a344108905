//! The tokens of a text.
#![tactic(auto)]

pub mod breaks;
mod bytes;
pub mod fault;
mod lexer;
pub mod names;
mod table;
pub mod theorems;
pub mod token;
pub mod tokens;
