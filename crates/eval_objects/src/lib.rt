//! Nouns, objects and calls: what names stand for, how they are bound and assigned, how objects are made, found and entered.
//!
//! What a function here gives or leaves is what the rules of evaluation say of its part.
#![tactic(auto)]

pub mod calls;
pub mod nouns;
pub mod objects;
mod resolvers;
pub mod whens;
