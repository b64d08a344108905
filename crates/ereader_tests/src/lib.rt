//! What is read and found in texts, where no reply of the program shows it: tables of texts, each with the answer that is wanted.
#![tactic(auto)]

#[cfg(test)]
mod answers;
#[cfg(test)]
mod captures;
#[cfg(test)]
mod names;
#[cfg(test)]
mod programs;
#[cfg(test)]
mod tables;
#[cfg(test)]
mod tokens;
