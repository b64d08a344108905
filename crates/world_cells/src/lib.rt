//! The world: vats by their names, their states, messages, and what promises were published as, in cells with last writers, and
//! the records that exchange with cells.
#![tactic(auto)]

pub mod event;
pub mod home;
pub mod homes;
pub mod record;
pub mod world;
