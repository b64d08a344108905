//! What a Bench does with threads, and with calls: turns that overlap, tickets that are strange, stale or abandoned, and a run to its end.
#![tactic(auto)]

#[cfg(test)]
mod books;
#[cfg(test)]
mod by_calls;
#[cfg(test)]
mod overlaps;
#[cfg(test)]
mod sessions;
