//! The tables and the cycle, read from their files.
//!
//! Contracts see a file as the list of its records. A reading says what files mean, or names their first fault; it is
//! defined in `specs/` by look-up among all records.
#![tactic(auto)]

mod allow;
mod block_file;
mod blocks;
mod cells;
mod chances;
mod cycle_file;
mod cycle_writing;
mod equipment;
mod fields;
mod files;
mod hospital;
mod numbering;
mod numbers;
mod patients;
mod read;
mod reading;
mod refusal;
mod restrictions;
mod rooms;
mod specialties;
mod stays;
mod watch;

pub use block_file::read_block;
pub use cycle_file::{CycleRefusal, read_cycle};
pub use cycle_writing::cycle_text;
pub use files::TableFiles;
pub use mss_model::CycleFault;
pub use read::read_tables;
pub use refusal::TableRefusal;
