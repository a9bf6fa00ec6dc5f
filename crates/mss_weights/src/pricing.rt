//! What blocks cost at prices, and what they use.
ghost use Rattle.std.specs.Prelude.{◌≡◌, ℕ, ◌<◌, ◌≤◌};
ghost use Rattle.mss_model.specs.Limits.{Between};
ghost use Rattle.mss_model.specs.PartsOf.{parts_of};
ghost use Rattle.mss_model.specs.TableWords.{specialty_count};

use crate::amounts::Amounts;
use crate::lists::{at, cell, put, row, row_mut};
use mss_model::Tables;

/// What a block of each specialty costs on each day.
pub(crate) fn price_blocks(
    tables: &Tables,
    rows: &[Vec<u32>],
    prices: &Amounts,
    costs: &mut [u64],
) {
    for place in 0..tables.specialties() {
        let of_specialty = row_mut(costs, place, tables.days());
        price_days(
            tables,
            weights(rows, place),
            prices,
            place + 1,
            of_specialty,
        );
    }
}

/// The weights of a specialty by offset.
pub(crate) fn weights(rows: &[Vec<u32>], place: u8) -> &[u32] {
    let place = usize::from(place);
    if place < rows.len() {
        &rows[place]
    } else {
        &[]
    }
}

/// How far weights are from their mean, all together.
pub(crate) fn spread(weights: &[u32]) -> u64 {
    let mean = mean(weights);
    let mut spread = 0u64;
    for weight in weights {
        spread = spread.saturating_add(u64::from(*weight).abs_diff(mean));
    }
    spread
}

/// The mean of weights, rounded down.
fn mean(weights: &[u32]) -> u64 {
    let mut total = 0u64;
    for weight in weights {
        total = total.saturating_add(u64::from(*weight));
    }
    total / (weights.len() as u64).max(1)
}

/// What a block of a specialty costs on each day.
fn price_days(tables: &Tables, weights: &[u32], prices: &Amounts, j: u8, costs: &mut [u64])
    requires { Between 1 (specialty_count (parts_of tables.now)) j }
{
    let places = row(&prices.places, tables.ward_of(j) - 1, tables.days());
    for day in 0..tables.days() {
        let cost = place_cost(places, weights, day)
            .saturating_add(at(&prices.slots, usize::from(day)))
            .saturating_add(kind_cost(tables, &prices.kinds, day, j));
        put(costs, usize::from(day), cost);
    }
}

/// What the days of a ward cost that a block of a day, from 0, loads: those from its day on, and then those before it.
fn place_cost(places: &[u64], weights: &[u32], day: u8) -> u64 {
    let day = usize::from(day).min(places.len());
    let later = (places.len() - day).min(weights.len());
    load_cost(&places[day..], weights).saturating_add(load_cost(&places[..day], &weights[later..]))
}

/// What days cost that have these loads, as far as both lists go.
fn load_cost(places: &[u64], weights: &[u32]) -> u64 {
    let mut cost = 0u64;
    for (place, weight) in places.iter().zip(weights) {
        cost = cost.saturating_add(place.saturating_mul(u64::from(*weight)));
    }
    cost
}

/// What the equipment of a block costs on a day, from 0.
fn kind_cost(tables: &Tables, kinds: &[u64], day: u8, j: u8) -> u64
    requires { Between 1 (specialty_count (parts_of tables.now)) j }
{
    let mut cost = 0u64;
    for kind in 0..tables.kinds() {
        let price = at(kinds, cell(day, tables.kinds(), kind));
        cost = cost.saturating_add(price.saturating_mul(u64::from(tables.need(j, kind + 1))));
    }
    cost
}

/// What all blocks use: loads of watched wards, slots and units.
pub(crate) fn use_blocks(tables: &Tables, rows: &[Vec<u32>], blocks: &[u64], uses: &mut Amounts) {
    uses.clear();
    for place in 0..tables.specialties() {
        let of_specialty = row(blocks, place, tables.days());
        use_days(tables, weights(rows, place), place + 1, of_specialty, uses);
    }
}

/// What the blocks of a specialty use.
fn use_days(tables: &Tables, weights: &[u32], j: u8, blocks: &[u64], uses: &mut Amounts)
    requires { Between 1 (specialty_count (parts_of tables.now)) j }
{
    for day in 0..tables.days() {
        let count = at(blocks, usize::from(day));
        if count > 0 {
            add(uses.slots.as_mut_slice(), usize::from(day), count);
            use_kinds(tables, j, day, count, uses.kinds.as_mut_slice());
            use_places(tables, weights, j, day, count, uses.places.as_mut_slice());
        }
    }
}

/// Adds a number to one of a list.
fn add(list: &mut [u64], place: usize, number: u64) {
    let sum = at(list, place).saturating_add(number);
    put(list, place, sum);
}

/// Adds the units that so many blocks of a day, from 0, use.
fn use_kinds(tables: &Tables, j: u8, day: u8, count: u64, kinds: &mut [u64])
    requires { Between 1 (specialty_count (parts_of tables.now)) j }
{
    for kind in 0..tables.kinds() {
        let units = count.saturating_mul(u64::from(tables.need(j, kind + 1)));
        add(kinds, cell(day, tables.kinds(), kind), units);
    }
}

/// Adds the loads of so many blocks of a day, from 0, if their ward is watched.
fn use_places(tables: &Tables, weights: &[u32], j: u8, day: u8, count: u64, places: &mut [u64])
    requires { Between 1 (specialty_count (parts_of tables.now)) j }
{
    let ward = tables.ward_of(j);
    if tables.watched(ward) {
        let of_ward = row_mut(places, ward - 1, tables.days());
        let day = usize::from(day).min(of_ward.len());
        let later = (of_ward.len() - day).min(weights.len());
        add_loads(&mut of_ward[day..], weights, count);
        add_loads(&mut of_ward[..day], &weights[later..], count);
    }
}

/// Adds the loads of so many blocks, as far as both lists go.
fn add_loads(places: &mut [u64], weights: &[u32], count: u64) {
    for (place, weight) in places.iter_mut().zip(weights) {
        *place = (*place).saturating_add(count.saturating_mul(u64::from(*weight)));
    }
}
