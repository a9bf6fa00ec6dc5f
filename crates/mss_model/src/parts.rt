//! The parts of which tables are made.
use crate::block_list::Blocks;
use crate::growing::{Names, Numbers};

/// What a set of tables says, before its limits are tested. Days, rooms, specialties, wards and equipment kinds count
/// from 1 in the order of their lists, and slots from 0, day by day and within a day room by room.
#[derive(Debug, Drop)]
pub struct TableParts {
    pub days: u8,
    /// The parts of each chance.
    pub parts: u32,
    pub rooms: Names,
    /// One for each slot.
    pub minutes: Numbers,
    pub wards: Names,
    pub specialties: Names,
    /// The number of its ward for each specialty.
    pub ward_of: Numbers,
    /// The most blocks on one day for each specialty.
    pub daily: Numbers,
    /// The least minutes of a cycle for each specialty.
    pub low: Numbers,
    /// The most minutes of a cycle for each specialty.
    pub high: Numbers,
    /// One for each specialty.
    pub blocks: Blocks,
    pub equipment: Names,
    /// One for each kind of equipment.
    pub units: Numbers,
    /// Specialty by specialty, the units of each kind of equipment that a block takes.
    pub needs: Numbers,
    /// Specialty by specialty, 1 for each room that doesn't suit it and 0 for each other.
    pub unsuited: Numbers,
    /// Specialty by specialty, 1 for each day on which it is barred and 0 for each other.
    pub barred: Numbers,
    /// For each slot 0 where it is free, and else 1 plus the option that it is to have.
    pub fixed: Numbers,
    /// The level of the peak, in millionths.
    pub level: u32,
    /// The levels of the report, in millionths.
    pub levels: Numbers,
    /// The numbers of the wards whose peak counts.
    pub watch: Numbers,
    /// The beds that are always taken, for each ward; 0 where its peak doesn't count.
    pub allow: Numbers,
    /// The most turns of the search.
    pub budget: u32,
}
