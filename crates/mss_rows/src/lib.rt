//! Comma-separated files, read record by record up to their first fault.
//!
//! Contracts see a file as the list of its records. A table says what the fault of a record is, and what it gathers of
//! the records that have none; `read_file` is the one loop over the records of any table.
#![tactic(auto)]

mod fields;
mod refusal;
mod rows;
mod table;
mod writing;

pub use fields::{five, name_of, number_between, three, two};
pub use refusal::{Fault, FileRefusal, RowRefusal};
pub use rows::Rows;
pub use table::{Table, read_file};
pub use writing::push_row;
