//! Resolves the names of programs: each noun gets its position in the frame where it is evaluated.
#![tactic(auto)]

mod frame;
mod resolving;

pub use resolving::{Resolved, resolve};
