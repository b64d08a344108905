//! Deliveries to vats: what a turn does, as a relation over the rules of evaluation, with its laws; and what the program keeps of it.
#![tactic(auto)]

pub mod lead;
pub mod outcome;
pub mod theorems;
