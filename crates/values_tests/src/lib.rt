//! What values, references and their fences answer to calls where memory is ample.
#![tactic(auto)]

#[cfg(test)]
mod data;
#[cfg(test)]
mod fences;
#[cfg(test)]
mod leads;
