//! The state of a vat: a finite map from top nouns to what they stand for, from slots to values, from objects to what they
//! are, from promises to what is known of them, and from references to the messages behind them.
#![tactic(auto)]

pub mod draft;
pub mod made;
pub mod reach;
pub mod sameness;
pub mod state;
