//! The commands `block`, `evaluate` and `evaluate json`.
#![tactic(auto)]

mod block_report;
mod evaluation;

pub use block_report::BlockReport;
pub use evaluation::{Evaluation, Form};
