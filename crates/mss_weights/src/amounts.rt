//! Numbers of all that has a price but the blocks.

use crate::lists::{add_times, cell, divide, fill, largest, put_quotients, worth};
use mss_model::{NoMemory, Tables};
use std::alloc::Global;

/// A number for each day of each ward, for the slots of each day, and for each kind of equipment on each day.
#[derive(Drop)]
pub(crate) struct Amounts {
    pub(crate) places: Vec<u64>,
    pub(crate) slots: Vec<u64>,
    /// By day, and within a day by kind.
    pub(crate) kinds: Vec<u64>,
}

impl Amounts {
    /// All numbers 0.
    pub(crate) fn make(alloc: Global, tables: &Tables) -> Result<Amounts, NoMemory> {
        let days = tables.days();
        Ok(Amounts {
            places: vec![in alloc; 0; cell(tables.wards(), days, 0)]?,
            slots: vec![in alloc; 0; usize::from(days)]?,
            kinds: vec![in alloc; 0; cell(tables.kinds(), days, 0)]?,
        })
    }

    pub(crate) fn clear(&mut self) {
        fill(self.places.as_mut_slice(), 0);
        fill(self.slots.as_mut_slice(), 0);
        fill(self.kinds.as_mut_slice(), 0);
    }

    /// Adds a multiple of other numbers.
    pub(crate) fn add_times(&mut self, others: &Amounts, factor: u64) {
        add_times(self.places.as_mut_slice(), &others.places, factor);
        add_times(self.slots.as_mut_slice(), &others.slots, factor);
        add_times(self.kinds.as_mut_slice(), &others.kinds, factor);
    }

    /// Becomes other numbers, each over a divisor.
    pub(crate) fn put_quotients(&mut self, others: &Amounts, divisor: u64) {
        put_quotients(self.places.as_mut_slice(), &others.places, divisor);
        put_quotients(self.slots.as_mut_slice(), &others.slots, divisor);
        put_quotients(self.kinds.as_mut_slice(), &others.kinds, divisor);
    }

    /// Divides all numbers, and rounds them to the nearest.
    pub(crate) fn divide(&mut self, divisor: u64) {
        divide(self.places.as_mut_slice(), divisor);
        divide(self.slots.as_mut_slice(), divisor);
        divide(self.kinds.as_mut_slice(), divisor);
    }

    pub(crate) fn largest(&self) -> u64 {
        largest(&self.places)
            .max(largest(&self.slots))
            .max(largest(&self.kinds))
    }

    /// What so many slots and units are worth at these prices.
    pub(crate) fn worth(&self, there: &Amounts) -> u64 {
        worth(&self.slots, &there.slots).saturating_add(worth(&self.kinds, &there.kinds))
    }
}
