//! The checker of certificates, which knows nothing of how they are made.
//!
//! Its yes proves a lower number of the peaks of all cycles that the rules admit. docs/MODEL.md tells the rules in words.
#![tactic(auto)]

mod checker;
mod lines;
mod path;
mod prefix_list;

pub use checker::check;
