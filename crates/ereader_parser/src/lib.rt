//! Reads the items of a program from tokens, by recursive descent.
#![tactic(auto)]

mod blocks;
mod expressions;
mod head;
mod level;
mod made;
mod objects;
mod peek;
mod primaries;
mod reader;

pub use reader::Reader;
