//! The command `generate`: the tables that are drawn from a number, and the numbers of their plan.
//!
//! It reads nothing, so that no fault of a file can end it. The generated files are accepted for each number, so it never
//! ends in a refusal of tables.
#![tactic(auto)]

mod generate;
mod own_tables;
mod summary;
mod words;

pub use generate::Generate;
pub use words::generate_of;
