//! Large inputs from a number: the ten files of a hospital that is drawn.
//!
//! `specs/Draws.antt` says what is drawn, `specs/Rows.antt` the records that tell it, and `specs/Generated.antt` the
//! files. Whatever is drawn, the files are accepted and within their limits.
#![tactic(auto)]

mod draws;
mod generate;
mod rows;
mod size;
mod specialty;
mod tables;

pub use generate::tables_from;
pub use size::Size;
