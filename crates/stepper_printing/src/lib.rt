//! What `show`, `enabled`, `journal` and `cone` print: a world, what may be done in it, and events, put piece by piece to an outlet. What
//! that takes memory for is made before.
#![tactic(auto)]

pub mod choice;
pub mod enabled;
pub mod gathering;
pub mod listing;
pub mod names;
pub mod picture;
pub mod quoting;
pub mod rows;
pub mod show;
pub mod value;
