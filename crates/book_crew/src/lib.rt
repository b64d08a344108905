//! Who does what may be done in a book, for the command `work`, and what that leaves of the book.
#![tactic(auto)]

pub mod crew;
