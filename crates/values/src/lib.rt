//! Values: their text, sameness, weight and the verbs of data.
#![tactic(auto)]

pub mod calls;
pub mod growing;
mod integers;
pub mod limits;
pub mod lists;
pub mod promises;
mod replies;
pub mod sameness;
pub mod showing;
pub mod texts;
pub mod theorems;
pub mod value;
pub mod verb;
pub mod wanted;
