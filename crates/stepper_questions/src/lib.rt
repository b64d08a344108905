//! Answers what an author asks of a journal and a world: how one event came of another, which cells an event touched, what a message
//! delivers, and what is in an object. What that takes memory for is made first; then it is put piece by piece to an outlet.
#![tactic(auto)]

pub mod cell;
mod chain;
pub mod events;
pub mod message;
mod named;
pub mod object;
pub mod reason;
mod showing;
mod standing;
pub mod theorems;
mod touched;
pub mod unanswered;
pub mod why;
