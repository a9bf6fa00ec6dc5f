//! Lines of texts and the numbers in them: what the texts of certificates have in common.
//!
//! docs/FORMATS.md tells the formats of the texts.
#![tactic(auto)]

mod fields;
mod lines;

pub use fields::{after, field, numbers};
pub use lines::first_line;
