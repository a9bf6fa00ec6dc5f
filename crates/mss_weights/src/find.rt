//! The finder.
ghost use Rattle.std.specs.Prelude.{◌≡◌, ℕ, ◌<◌, ◌≤◌, ◌^◌, List, length, map, true, IsTrue, IfOk, IfSome};
ghost use Rattle.mss_lines.specs.Fields.{AreShort};
ghost use Rattle.mss_model.specs.Legality.{IsLegal};
ghost use Rattle.mss_model.specs.PartsOf.{parts_of};
ghost use Rattle.mss_model.specs.Peak.{peak_at};
ghost use Rattle.mss_model.specs.TableWords.{specialty_count};
ghost use Rattle.mss_weights.specs.BlockWeights.{weight_table};
ghost use Rattle.mss_weights.specs.Rows.{AreRows};
ghost use Rattle.mss_weights.specs.ShortLists.{HasShortLists};
ghost use Rattle.mss_weights.specs.Shown.{is_shown};
ghost use Rattle.mss_weights.specs.WeightsText.{IsShort, price_count};

use crate::check::{is_worth_more, shows};
use crate::finder::{ALL_PLACES, Finder, most_beds};
use crate::lists::{at, cell};
use crate::rows::weight_rows;
use crate::scales::least_reach;
use crate::sums::{all_places, limits_cost, spent, worth};
use crate::weights::{MOST_PRICES, Weights};
use mss_enclose::Kernel;
use mss_model::{NoMemory, Numbers, Tables};
use std::alloc::Global;

/// The least power that is tried; each further one is greater by a fifth.
const FIRST_POWER: u32 = 64;

const POWERS: u32 = 30;

/// So often the range of the number is halved.
const HALVINGS: u32 = 14;

/// The rounds for each power.
const SHORT_ROUNDS: u32 = 125;

/// The rounds for the best one.
const LONG_ROUNDS: u32 = 2000;

/// The weights that show the greatest lower number that the finder comes to, where it comes to any. Which number that is
/// isn't promised; equal tables give equal weights.
pub fn find_weights<K: Kernel>(
    alloc: Global,
    kernel: &K,
    tables: &Tables,
) -> Result<Option<Weights>, NoMemory>
    ensures shown { IfOk result (λ found. IfSome found (λ w. IsTrue (is_shown (parts_of tables.now) w))) }
    ensures lower { IfOk result (λ found. IfSome found (λ w. (cycle : List ℕ) → IsLegal (parts_of tables.now) cycle
        → w.number ≤ peak_at (parts_of tables.now) cycle (parts_of tables.now).level)) }
    ensures short { IfOk result (λ found. IfSome found IsShort) }
    ensures few { IfOk result (λ found. IfSome found (λ w. price_count w ≤ MOST_PRICES)) }
{
    let Some(reach) = least_reach(tables.level()) else {
        return Ok(None);
    };
    let mut finder = Finder::make(alloc, tables)?;
    let beds = most_beds(tables);
    if !finder.supply.needs_none() {
        let power = best_power(alloc, kernel, tables, &mut finder, reach)?;
        let rows = weight_rows(alloc, kernel, tables, power)?;
        finder.rounds(tables, &rows, power, reach, LONG_ROUNDS);
        let weights = weights_of(alloc, tables, &rows, &mut finder, power, reach)?;
        let found = with_greatest(tables, &rows, weights);
        if number_of(&found) >= beds {
            return Ok(found);
        }
    }
    let rows = weight_rows(alloc, kernel, tables, 0)?;
    finder.price_beds(tables, beds);
    let weights = weights_of(alloc, tables, &rows, &mut finder, 0, reach)?;
    Ok(with_greatest(tables, &rows, weights))
}

/// The number of a certificate, or 0.
fn number_of(found: &Option<Weights>) -> u32 {
    match found {
        Some(weights) => weights.number,
        None => 0,
    }
}

/// The power with which a few rounds come to the greatest number.
fn best_power<K: Kernel>(
    alloc: Global,
    kernel: &K,
    tables: &Tables,
    finder: &mut Finder,
    reach: u32,
) -> Result<u32, NoMemory> {
    let mut best = 0;
    let mut most = 0;
    let mut power = FIRST_POWER;
    for _power in 0..POWERS {
        let rows = weight_rows(alloc, kernel, tables, power)?;
        let value = finder.rounds(tables, &rows, power, reach, SHORT_ROUNDS);
        let number = thousandths(value, power, reach);
        if number > most {
            best = power;
            most = number;
        }
        power = power.saturating_mul(6) / 5;
    }
    Ok(best)
}

/// The number that prices of a value come to, in thousandths.
fn thousandths(value: u64, power: u32, reach: u32) -> u64 {
    let load = value.saturating_mul(1000) / ALL_PLACES;
    load.saturating_sub(u64::from(reach) * 1000) / u64::from(power).max(1)
}

/// The prices of a finder as a certificate, with the best prices of blocks to them.
fn weights_of(
    alloc: Global,
    tables: &Tables,
    rows: &[Vec<u32>],
    finder: &mut Finder,
    power: u32,
    reach: u32,
) -> Result<Weights, NoMemory>
    ensures power { IfOk result (λ w. w.power ≡ power) }
    ensures lists { IfOk result HasShortLists }
{
    let days = tables.days();
    finder.shorten(tables, rows);
    let blocks = block_prices(alloc, tables, finder)?;
    let prices = &finder.prices;
    let places = first_prices(alloc, &prices.places, cell(tables.wards(), days, 0))?;
    let slots = first_prices(alloc, &prices.slots, usize::from(days))?;
    let kinds = first_prices(alloc, &prices.kinds, cell(days, tables.kinds(), 0))?;
    Ok(Weights {
        number: 0,
        power,
        reach,
        places,
        blocks,
        slots,
        kinds,
    })
}

/// The best prices of blocks to the prices of a finder.
fn block_prices(alloc: Global, tables: &Tables, finder: &mut Finder) -> Result<Numbers, NoMemory>
    ensures short { IfOk result AreShort }
    ensures few { IfOk result (λ prices. length prices ≤ 1000) }
{
    let mut prices = Numbers::make(alloc);
    for place in 0..tables.specialties() {
        prices.push(short(finder.deal_one(tables, place).dearest))?;
    }
    Ok(prices)
}

/// So many first prices of a list.
fn first_prices(alloc: Global, list: &[u64], count: usize) -> Result<Numbers, NoMemory>
    requires { count ≤ 1000 }
    ensures short { IfOk result AreShort }
    ensures few { IfOk result (λ prices. length prices ≤ 1000) }
{
    let mut prices = Numbers::make(alloc);
    for place in 0..count {
        prices.push(short(at(list, place)))?;
    }
    Ok(prices)
}

/// A price in nine digits.
fn short(price: u64) -> u32
    ensures { result < 10 ^ 9 }
{
    price.min(999_999_999) as u32
}

/// The certificate with the greatest number that the checker says yes to, where there is one.
fn with_greatest(tables: &Tables, rows: &[Vec<u32>], mut weights: Weights) -> Option<Weights>
    requires table { map (λ row. row.items) rows.now ≡ weight_table weights.power (parts_of tables.now) }
    requires rows { AreRows weights.power (parts_of tables.now) (specialty_count (parts_of tables.now)) (map (λ row. row.items) rows.now) }
    requires lists { HasShortLists weights }
    ensures shown { IfSome result (λ w. IsTrue (is_shown (parts_of tables.now) w)) }
    ensures lower { IfSome result (λ w. (cycle : List ℕ) → IsLegal (parts_of tables.now) cycle
        → w.number ≤ peak_at (parts_of tables.now) cycle (parts_of tables.now).level) }
    ensures short { IfSome result IsShort }
    ensures few { IfSome result (λ w. price_count w ≤ MOST_PRICES) }
{
    weights.number = greatest(tables, rows, &weights);
    if shows(tables, rows, &weights) {
        Some(weights)
    } else {
        None
    }
}

/// The greatest number below 2^14 at which the checker says that the prices pay, or 0.
fn greatest(tables: &Tables, rows: &[Vec<u32>], weights: &Weights) -> u32
    requires { AreRows weights.now.power (parts_of tables.now) (specialty_count (parts_of tables.now)) (map (λ row. row.items) rows.now) }
    ensures { result ≤ 16384 }
{
    let worth = worth(tables, weights);
    let spent = spent(tables, rows, weights);
    let places = all_places(tables, weights);
    let mut low = 0u32;
    let mut high = 1 << HALVINGS;
    for _halving in 0..HALVINGS {
        let middle = (low + high) / 2;
        let limits = limits_cost(tables, weights, middle.saturating_sub(1));
        if is_worth_more(worth, spent, places, limits) {
            low = middle;
        } else {
            high = middle;
        }
    }
    low
}
