//! Derived forms: what operators, words, `return` and functions stand for, as nodes of trees.
#![tactic(auto)]

pub mod methods;
pub mod operators;
pub mod words;
