//! Names and their numbers: a table keeps names in the order in which they were first seen.
#![tactic(auto)]

mod table;

pub use table::{NameRefusal, NameTable};
