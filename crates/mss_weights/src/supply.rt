//! What the tables have and ask for, in lists.

use crate::amounts::Amounts;
use crate::counts::{most_blocks, needed_blocks, open_slots};
use crate::lists::{cell, put, total};
use mss_model::{NoMemory, Tables};
use std::alloc::Global;

/// How many blocks each specialty needs, how many it can have on a day, and how many slots and units each day has.
#[derive(Drop)]
pub(crate) struct Supply {
    pub(crate) needed: Vec<u64>,
    /// By specialty, and within one by day.
    pub(crate) most: Vec<u64>,
    pub(crate) there: Amounts,
}

impl Supply {
    pub(crate) fn make(alloc: Global, tables: &Tables) -> Result<Supply, NoMemory> {
        let mut needed = vec![in alloc; 0; usize::from(tables.specialties())]?;
        let mut most = vec![in alloc; 0; cell(tables.specialties(), tables.days(), 0)]?;
        let mut there = Amounts::make(alloc, tables)?;
        put_needed(tables, needed.as_mut_slice());
        put_most(tables, most.as_mut_slice());
        put_slots(tables, there.slots.as_mut_slice());
        put_units(tables, there.kinds.as_mut_slice());
        Ok(Supply {
            needed,
            most,
            there,
        })
    }

    pub(crate) fn needs_none(&self) -> bool {
        total(&self.needed) == 0
    }
}

fn put_needed(tables: &Tables, needed: &mut [u64]) {
    for j in 0..tables.specialties() {
        put(
            needed,
            usize::from(j),
            u64::from(needed_blocks(tables, j + 1)),
        );
    }
}

fn put_most(tables: &Tables, most: &mut [u64]) {
    for j in 0..tables.specialties() {
        for day in 0..tables.days() {
            let blocks = most_blocks(tables, day + 1, j + 1);
            put(most, cell(j, tables.days(), day), u64::from(blocks));
        }
    }
}

fn put_slots(tables: &Tables, slots: &mut [u64]) {
    for day in 0..tables.days() {
        put(
            slots,
            usize::from(day),
            u64::from(open_slots(tables, day + 1)),
        );
    }
}

fn put_units(tables: &Tables, kinds: &mut [u64]) {
    for day in 0..tables.days() {
        for kind in 0..tables.kinds() {
            let units = tables.units(kind + 1);
            put(kinds, cell(day, tables.kinds(), kind), u64::from(units));
        }
    }
}
