//! Rounds over prices: blocks go to where they cost least, and what is used much gets dearer.
ghost use Rattle.std.specs.Prelude.{◌<◌};

use crate::amounts::Amounts;
use crate::dealing::{Dealt, deal};
use crate::lists::{add_times, at, cell, fill, largest, put, row, row_mut, total, worth};
use crate::pricing::{price_blocks, spread, use_blocks, weights};
use crate::supply::Supply;
use mss_model::{NoMemory, Tables};
use std::alloc::Global;

/// What all places cost together.
pub(crate) const ALL_PLACES: u64 = 1 << 24;

/// A place's price is its share of all shares, over this number.
const FINER: u64 = 1 << 6;

/// 1, as a factor of shares.
const WHOLE: u64 = 1 << 16;

/// The step of shares in a round is this, over the number of the round and 8.
const SHARE_STEP: u64 = 64 * WHOLE;

/// No price of a certificate is greater, but for roundings.
const LARGEST_PRICE: u64 = 900_000_000;

/// The prices of a round, and what the finder computes from them.
#[derive(Drop)]
pub(crate) struct Finder {
    pub(crate) supply: Supply,
    pub(crate) prices: Amounts,
    /// The prices of all rounds so far, a later one as often as it is late.
    sums: Amounts,
    /// What the blocks of the round use.
    uses: Amounts,
    /// The prices of places, on a finer scale.
    shares: Vec<u64>,
    /// How far the shares are drawn to each place: its load over the largest one, in a mean of some rounds.
    pulls: Vec<u64>,
    /// What a block costs, by specialty and within one by day.
    costs: Vec<u64>,
    /// How many blocks there are, in the same order.
    blocks: Vec<u64>,
    /// What the beds weigh that are always taken, by place.
    beds: Vec<u64>,
}

impl Finder {
    /// A finder for these tables. It takes all memory that its rounds need.
    pub(crate) fn make(alloc: Global, tables: &Tables) -> Result<Finder, NoMemory> {
        let places = cell(tables.wards(), tables.days(), 0);
        let blocks = cell(tables.specialties(), tables.days(), 0);
        Ok(Finder {
            supply: Supply::make(alloc, tables)?,
            prices: Amounts::make(alloc, tables)?,
            sums: Amounts::make(alloc, tables)?,
            uses: Amounts::make(alloc, tables)?,
            shares: vec![in alloc; 0; places]?,
            pulls: vec![in alloc; 0; places]?,
            costs: vec![in alloc; 0; blocks]?,
            blocks: vec![in alloc; 0; blocks]?,
            beds: vec![in alloc; 0; places]?,
        })
    }

    /// Goes so many rounds from equal prices of places, and then takes the mean of their prices, where a later round counts
    /// more. What the needed blocks and the beds that are always taken cost at them, above what slots and units are worth.
    pub(crate) fn rounds(
        &mut self,
        tables: &Tables,
        rows: &[Vec<u32>],
        power: u32,
        reach: u32,
        count: u32,
    ) -> u64 {
        self.begin(tables);
        price_blocks(tables, rows, &self.prices, self.costs.as_mut_slice());
        self.weigh_beds(tables, rows, power, reach);
        let step = largest(&self.prices.places).saturating_mul(self.mean_spread(tables, rows));
        for round in 0..count {
            self.round(tables, rows, u64::from(round + 1), step.saturating_mul(2));
        }
        let whole = u64::from(count).saturating_mul(u64::from(count) + 1) / 2;
        self.prices.put_quotients(&self.sums, whole);
        price_blocks(tables, rows, &self.prices, self.costs.as_mut_slice());
        let beds = worth(&self.prices.places, &self.beds);
        self.deal_all(tables).saturating_add(beds)
    }

    /// Equal prices of the days of watched wards, and no others.
    fn begin(&mut self, tables: &Tables) {
        self.prices.clear();
        self.sums.clear();
        fill(self.shares.as_mut_slice(), 0);
        fill(self.pulls.as_mut_slice(), 0);
        for ward in 0..tables.wards() {
            let share = u64::from(tables.watched(ward + 1));
            fill(
                row_mut(self.shares.as_mut_slice(), ward, tables.days()),
                share,
            );
        }
        self.share_out();
    }

    /// Weighs the beds that are always taken, above those of the watched ward with the fewest. Those of a ward don't count
    /// where its needed blocks don't come to the reach, since these show nothing above its beds then.
    fn weigh_beds(&mut self, tables: &Tables, rows: &[Vec<u32>], power: u32, reach: u32) {
        let days = tables.days();
        let least = u64::from(reach) * u64::from(days);
        let fewest = fewest_beds(tables);
        self.deal_all(tables);
        use_blocks(tables, rows, &self.blocks, &mut self.uses);
        for ward in 0..tables.wards() {
            let beds = if total(row(&self.uses.places, ward, days)) < least {
                0
            } else {
                tables.allow(ward + 1).saturating_sub(fewest)
            };
            let load = u64::from(power) * u64::from(beds);
            fill(row_mut(self.beds.as_mut_slice(), ward, days), load);
        }
    }

    /// How far the weights of a needed block are from their mean, all offsets together.
    fn mean_spread(&self, tables: &Tables, rows: &[Vec<u32>]) -> u64 {
        let mut all = 0u64;
        for place in 0..tables.specialties() {
            let needed = at(&self.supply.needed, usize::from(place));
            all = all.saturating_add(spread(weights(rows, place)).saturating_mul(needed));
        }
        all / total(&self.supply.needed).max(1)
    }

    /// A round, from 1, at prices at which blocks are priced; those of the next are then there.
    fn round(&mut self, tables: &Tables, rows: &[Vec<u32>], round: u64, step: u64) {
        self.deal_all(tables);
        self.sums.add_times(&self.prices, round);
        use_blocks(tables, rows, &self.blocks, &mut self.uses);
        add_times(self.uses.places.as_mut_slice(), &self.beds, 1);
        self.pull(round == 1, SHARE_STEP / later(round, 8));
        self.adjust(step / later(round, 32));
        self.share_out();
        price_blocks(tables, rows, &self.prices, self.costs.as_mut_slice());
    }

    /// Deals the needed blocks to their cheapest days. What they cost, above what slots and units are worth.
    fn deal_all(&mut self, tables: &Tables) -> u64 {
        let mut cost = 0u64;
        for place in 0..tables.specialties() {
            cost = cost.saturating_add(self.deal_one(tables, place).all);
        }
        cost.saturating_sub(self.prices.worth(&self.supply.there))
    }

    /// Deals the needed blocks of the specialty at a place.
    pub(crate) fn deal_one(&mut self, tables: &Tables, place: u8) -> Dealt {
        deal(
            at(&self.supply.needed, usize::from(place)),
            row(&self.supply.most, place, tables.days()),
            row(&self.costs, place, tables.days()),
            row_mut(self.blocks.as_mut_slice(), place, tables.days()),
        )
    }

    /// Brings the sum of the shares to the same number again, and prices the places by them.
    fn share_out(&mut self) {
        let whole = total(&self.shares).max(1);
        for place in 0..self.shares.len() {
            let share = self.shares[place].saturating_mul(ALL_PLACES * FINER) / whole;
            self.shares[place] = share;
            put(self.prices.places.as_mut_slice(), place, share / FINER);
        }
    }

    /// Draws the shares to places of great load.
    fn pull(&mut self, is_first: bool, step: u64) {
        let top = largest(&self.uses.places).max(1);
        for place in 0..self.shares.len() {
            let now = at(&self.uses.places, place).saturating_mul(WHOLE) / top;
            let pull = if is_first {
                now
            } else {
                mean(at(&self.pulls, place), now)
            };
            put(self.pulls.as_mut_slice(), place, pull);
            let factor = (step.saturating_mul(pull) / WHOLE).saturating_add(WHOLE);
            self.shares[place] = self.shares[place].saturating_mul(factor) / WHOLE;
        }
    }

    /// Raises the prices of slots and units that are used more than there are, and lowers those of the others.
    fn adjust(&mut self, step: u64) {
        adjust(
            self.prices.slots.as_mut_slice(),
            &self.uses.slots,
            &self.supply.there.slots,
            step,
        );
        adjust(
            self.prices.kinds.as_mut_slice(),
            &self.uses.kinds,
            &self.supply.there.kinds,
            step,
        );
    }

    /// The price 1 for one day of the first ward of which so many beds are always taken, and no other prices.
    pub(crate) fn price_beds(&mut self, tables: &Tables, beds: u32) {
        self.prices.clear();
        for ward in 0..tables.wards() {
            if tables.allow(ward + 1) == beds {
                let place = cell(ward, tables.days(), 0);
                put(self.prices.places.as_mut_slice(), place, 1);
                return;
            }
        }
    }

    /// Brings all prices, and what blocks cost at them, to some nine digits.
    pub(crate) fn shorten(&mut self, tables: &Tables, rows: &[Vec<u32>]) {
        let largest = largest(&self.costs).max(self.prices.largest());
        self.prices.divide(largest / LARGEST_PRICE + 1);
        price_blocks(tables, rows, &self.prices, self.costs.as_mut_slice());
    }
}

/// The fewest beds of a watched ward that are always taken.
fn fewest_beds(tables: &Tables) -> u32 {
    let mut fewest = u32::MAX;
    for ward in 0..tables.wards() {
        if tables.watched(ward + 1) {
            fewest = fewest.min(tables.allow(ward + 1));
        }
    }
    fewest
}

/// The most beds of a ward that are always taken.
pub(crate) fn most_beds(tables: &Tables) -> u32 {
    let mut most = 0;
    for ward in 0..tables.wards() {
        most = tables.allow(ward + 1).max(most);
    }
    most
}

/// The number of a round and some more.
fn later(round: u64, more: u64) -> u64
    ensures { 0 < result }
{
    round.saturating_add(more).max(1)
}

/// The mean of a mean of some rounds and what is now.
fn mean(before: u64, now: u64) -> u64 {
    before.saturating_mul(3).saturating_add(now) / 4
}

/// Raises each price by a step for all that is there and used, and lowers it by the step.
fn adjust(prices: &mut [u64], used: &[u64], there: &[u64], step: u64) {
    for place in 0..prices.len() {
        let more = step.saturating_mul(at(used, place)) / at(there, place).max(1);
        prices[place] = prices[place].saturating_add(more).saturating_sub(step);
    }
}
