//! Fences, and the order of turns that they keep: what a vat has behind a reference, from a set that keeps the newest names alone.
#![tactic(auto)]

pub mod carried;
pub mod fence;
pub mod rules;
pub mod theorems;
