//! Forced floors: the least that specialties which still miss minutes must add to a ward.
#![tactic(auto)]

mod floors;
mod forcing;
mod lowest;
mod pushing;

pub use floors::Floors;
pub use forcing::{forced, forced_counts};
