//! The book that all events go through: the world, the journal that made it, and the tickets of turns that are out.
#![tactic(auto)]

pub mod book;
pub mod request;
mod seatless;
mod seats;
mod taking_back;
pub mod theorems;
mod tickets;
