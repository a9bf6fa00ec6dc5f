//! The commands `check` and `check alike`.
#![tactic(auto)]

mod certification;

pub use certification::Certification;
