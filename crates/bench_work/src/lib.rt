//! Workers in threads, who do what may be done in a book: at a Bench where others may be too, or in a workshop of their own.
//!
//! Turns are run by workers, and the thread that called them alone gives what they ran.
#![tactic(auto)]

pub mod errand;
pub mod once;
mod pile;
mod under_work;
pub mod work;
mod workplace;
mod workshop;
