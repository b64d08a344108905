//! What the engine replies, and how its runs end, over readers and writers that give and take little, or fail, and on a smaller stack.
#![tactic(auto)]

#[cfg(test)]
mod depth;
#[cfg(test)]
mod endings;
#[cfg(test)]
mod failing;
#[cfg(test)]
mod fakes;
#[cfg(test)]
mod lines;
#[cfg(test)]
mod pieces;
#[cfg(test)]
mod streaming;
#[cfg(test)]
mod talking;
