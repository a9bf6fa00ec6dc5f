//! Binomial thinning of kept lists, and the kept lists of one block: age by age, and summed by the days of a cycle.
//!
//! docs/MODEL.md tells the rules in words.
#![tactic(auto)]

mod ages;
mod offsets;
mod thin_row;
mod thinning;

pub use ages::{FIRST_REST, THINNING_REST, admitted, block_days, departures};
pub use offsets::{AGE_REST, steady, steady_departures};
pub use thin_row::ThinRow;
