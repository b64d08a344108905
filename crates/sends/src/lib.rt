//! What a turn makes of sends, whens, promises and the uses of resolvers.
#![tactic(auto)]

pub mod coming;
pub mod ends;
pub mod entering;
pub mod fences;
pub mod gathering;
pub mod leaving;
pub mod publishing;
pub mod refusing;
pub mod sending;
pub mod theorems;
