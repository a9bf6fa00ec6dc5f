//! The types of the planner and the exact workload model.
//!
//! Contracts of all crates cite the definitions in `specs/`, which docs/MODEL.md tells in words. A type with private
//! fields is seen by callers as a plain list or record.
#![tactic(auto)]

mod block_list;
mod faults;
mod files;
mod growing;
mod limits;
mod name_rule;
mod no_memory;
mod one_block;
mod one_cycle;
mod parts;
mod table_set;

pub use block_list::Blocks;
pub use faults::{CycleFault, KIND_NAMES, Kind, TableFault};
pub use files::{
    BARRED_FILE, BLOCK_FILE, EQUIPMENT_FILE, FILE_NAMES, FIXED_FILE, MOST_BYTES, NEEDS_FILE,
    PATIENTS_FILE, ROOMS_FILE, SETTINGS_FILE, SPECIALTIES_FILE, STAYS_FILE, TABLE_FILES,
    UNSUITED_FILE, file_name,
};
pub use growing::{MOST_MEMBERS, Names, Numbers, Text};
pub use limits::{
    MOST_ALLOWANCE, MOST_BUDGET, MOST_DAILY, MOST_DAYS, MOST_KINDS, MOST_LEVEL, MOST_LISTED,
    MOST_MINUTES, MOST_OPTIONS, MOST_ROOMS, MOST_SLOTS, MOST_SPECIALTIES, MOST_TARGET, MOST_UNITS,
    MOST_WARDS, WHOLE_LEVEL,
};
pub use name_rule::{MOST_NAME_BYTES, is_name};
pub use no_memory::NoMemory;
pub use one_block::{Block, FINE_PARTS, MOST_AGES, MOST_PATIENTS, PARTS, is_parts};
pub use one_cycle::Cycle;
pub use parts::TableParts;
pub use table_set::Tables;
