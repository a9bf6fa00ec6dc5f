//! The desk: where a command reads its files, puts its files and says its text.
//!
//! The trait says what each call changes and when it fails. `MemoryDesk` and `SureDesk` keep everything in memory, and
//! `FolderDesk` works on the files of the current folder and on standard output.
#![tactic(auto)]

mod desk;
mod folder;
mod memory;
mod shelf;
mod sure;

pub use desk::{Desk, ReadAnswer, WriteAnswer};
pub use folder::{FolderDesk, UNFINISHED};
pub use memory::MemoryDesk;
pub use sure::SureDesk;
