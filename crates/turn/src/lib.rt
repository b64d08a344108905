//! Turns: what one delivery to a vat does to the vat's state.
//!
//! A ticket carries a share of the state and a delivery away, runs the turn, and keeps in its type that the outcome is
//! the one that the definitions give: `turn_deliveries/specs/Turn.antt` for the turn, `eval_rules/specs/Rules.antt` for the evaluation in it.
#![tactic(auto)]

mod calls;
pub mod delivery;
mod ending;
mod opening;
pub mod ticket;
mod whens;
