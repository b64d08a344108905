//! What a program may name: its own names, the check of its scopes, size and depth, and what objects and whens capture.
#![tactic(auto)]

mod checking;
mod count;
mod free;
mod naming;
mod parts;
mod theorems;

pub use checking::{CheckFault, Outer, check};
pub use free::{captured_by_when, captured_names, checks_free_names};
pub use naming::{NameKind, TopName, adds_own_names, top_names};
pub use theorems::{limits_are_numbers, scopes_are_lawful};
