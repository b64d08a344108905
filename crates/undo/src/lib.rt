//! Undo and redo by records that are exchanged with the cells of the world.
#![tactic(auto)]

pub mod open_entries;
pub mod records;
pub mod theorems;
pub mod undoing;
