//! What books and plain runs answer where memory is ample, and what takes none where all is taken: calls with their answers.
#![tactic(auto)]

#[cfg(test)]
mod books;
#[cfg(test)]
mod calls;
#[cfg(test)]
mod plain_runs;
#[cfg(test)]
mod several;
#[cfg(test)]
mod spent;
#[cfg(test)]
mod tickets;
#[cfg(test)]
mod without_memory;
