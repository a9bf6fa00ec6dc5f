//! The limits of tables, and the tests of them.
ghost use Rattle.std.specs.Prelude.{◌≡◌, ◌↔◌, ◌==◌, ℕ, ◌+◌, ◌<◌, ◌≤◌, length, slice_index, false, IsTrue};
ghost use Rattle.std.specs.List.{list_any};
ghost use Rattle.mss_model.specs.TableWords.{ward_count, is_watched};
ghost use Rattle.mss_model.specs.Limits.{AreInParts, Between, AreBetween, AreNumbers, AreDistinct, IsName, AreNamed, AreNamesDistinct, AreNames, AreSlots, AreSpecialties, AreTargets, AreNeeds, AreSettings, AreAllowances, IsTables};

use crate::block_list::Blocks;
use crate::growing::{MOST_MEMBERS, Names};
use crate::name_rule::is_name;
use crate::one_block::is_parts;
use crate::parts::TableParts;

/// The most days of a cycle.
pub const MOST_DAYS: u32 = 28;

pub const MOST_ROOMS: u32 = 16;

pub const MOST_SPECIALTIES: u32 = 24;

/// The most options of a slot: idle, and a block of each specialty.
pub const MOST_OPTIONS: usize = 25;

pub const MOST_WARDS: u32 = 8;

/// The most kinds of equipment.
pub const MOST_KINDS: u32 = 8;

/// The most slots of a cycle.
pub const MOST_SLOTS: u32 = 448;

/// The most minutes of a slot.
pub const MOST_MINUTES: u32 = 1_440;

/// The most low or high minutes of a specialty.
pub const MOST_TARGET: u32 = 1_000_000;

/// The most blocks of a specialty on one day.
pub const MOST_DAILY: u32 = 16;

/// The most units of a kind of equipment that there are, or that a block takes.
pub const MOST_UNITS: u32 = 1_000;

/// The level that the whole has, in millionths.
pub const WHOLE_LEVEL: u32 = 1_000_000;

/// The greatest level, in millionths. The least is 1.
pub const MOST_LEVEL: u32 = 999_999;

/// The most levels of a report, and the most watched wards.
pub const MOST_LISTED: u32 = 8;

/// The most beds of a ward that are always taken.
pub const MOST_ALLOWANCE: u32 = 1_000;

/// The most turns of the search.
pub const MOST_BUDGET: u32 = 20_000;

fn is_between(low: u32, high: u32, number: u32) -> bool
    ensures { IsTrue result ↔ Between low high number }
{
    low <= number && number <= high
}

fn are_between(low: u32, high: u32, numbers: &[u32]) -> bool
    ensures { IsTrue result ↔ AreBetween low high numbers.now }
{
    numbers
        .iter()
        .all(|number| low <= *number && *number <= high)
}

fn are_numbers(count: usize, low: u32, high: u32, numbers: &[u32]) -> bool
    ensures { IsTrue result ↔ AreNumbers count low high numbers.now }
{
    numbers.len() == count && are_between(low, high, numbers)
}

fn are_distinct(numbers: &[u32]) -> bool
    ensures { IsTrue result ↔ AreDistinct numbers.now }
{
    for j in 0..numbers.len() {
        for i in 0..j {
            if numbers[i] == numbers[j] {
                return false;
            }
        }
    }
    true
}

fn is_named(name: &[u8]) -> bool
    ensures { IsTrue result ↔ IsName name.now }
{
    is_name(name)
}

fn are_named(names: &Names) -> bool
    ensures { IsTrue result ↔ AreNamed names.now }
{
    for place in 0..names.len() {
        if !is_named(names.get(place)) {
            return false;
        }
    }
    true
}

fn are_names_distinct(names: &Names) -> bool
    ensures { IsTrue result ↔ AreNamesDistinct names.now }
{
    for j in 0..names.len() {
        for i in 0..j {
            if names.get(i) == names.get(j) {
                return false;
            }
        }
    }
    true
}

fn are_names(low: u32, high: u32, names: &Names) -> bool
    ensures { IsTrue result ↔ AreNames low high names.now }
{
    is_between(low, high, names.len()) && are_named(names) && are_names_distinct(names)
}

fn are_ordered(low: &[u32], high: &[u32]) -> bool
    requires { length low.now ≡ length high.now }
    ensures { IsTrue result ↔ ((i : ℕ) → i < length low.now → slice_index low.now i ≤ slice_index high.now i) }
{
    for place in 0..low.len() {
        if low[place] > high[place] {
            return false;
        }
    }
    true
}

fn are_slots(parts: &TableParts) -> bool
    ensures { IsTrue result ↔ AreSlots parts.now }
{
    let slots = usize::from(parts.days) * parts.rooms.len() as usize;
    is_between(1, MOST_DAYS, u32::from(parts.days))
        && are_names(1, MOST_ROOMS, &parts.rooms)
        && are_numbers(slots, 0, MOST_MINUTES, parts.minutes.as_slice())
        && are_numbers(
            slots,
            0,
            parts.specialties.len() + 1,
            parts.fixed.as_slice(),
        )
}

fn are_specialties(parts: &TableParts) -> bool
    ensures { IsTrue result ↔ AreSpecialties parts.now }
{
    let specialties = parts.specialties.len() as usize;
    are_names(1, MOST_SPECIALTIES, &parts.specialties)
        && are_names(1, MOST_WARDS, &parts.wards)
        && are_numbers(specialties, 1, parts.wards.len(), parts.ward_of.as_slice())
        && are_numbers(specialties, 0, MOST_DAILY, parts.daily.as_slice())
        && parts.blocks.len() == parts.specialties.len()
        && is_parts(parts.parts)
        && are_in_parts(parts.parts, &parts.blocks)
}

/// Whether the chances of each block are in so many parts.
fn are_in_parts(parts: u32, blocks: &Blocks) -> bool
    ensures { IsTrue result ↔ AreInParts parts blocks.now }
{
    for place in 0..blocks.len() {
        if blocks.get(place).parts() != parts {
            return false;
        }
    }
    true
}

fn are_targets(parts: &TableParts) -> bool
    ensures { IsTrue result ↔ AreTargets parts.now }
{
    let specialties = parts.specialties.len() as usize;
    are_numbers(specialties, 0, MOST_TARGET, parts.low.as_slice())
        && are_numbers(specialties, 0, MOST_TARGET, parts.high.as_slice())
        && are_ordered(parts.low.as_slice(), parts.high.as_slice())
}

fn are_needs(parts: &TableParts) -> bool
    ensures { IsTrue result ↔ AreNeeds parts.now }
{
    let specialties = parts.specialties.len() as usize;
    let kinds = parts.equipment.len() as usize;
    are_names(0, MOST_KINDS, &parts.equipment)
        && are_numbers(kinds, 0, MOST_UNITS, parts.units.as_slice())
        && are_numbers(specialties * kinds, 0, MOST_UNITS, parts.needs.as_slice())
        && are_numbers(
            specialties * parts.rooms.len() as usize,
            0,
            1,
            parts.unsuited.as_slice(),
        )
        && are_numbers(
            specialties * usize::from(parts.days),
            0,
            1,
            parts.barred.as_slice(),
        )
}

fn are_settings(parts: &TableParts) -> bool
    ensures { IsTrue result ↔ AreSettings parts.now }
{
    let levels = parts.levels.as_slice();
    let watch = parts.watch.as_slice();
    is_between(1, MOST_LEVEL, parts.level)
        && is_listed(levels.len())
        && are_between(1, MOST_LEVEL, levels)
        && is_listed(watch.len())
        && are_between(1, parts.wards.len(), watch)
        && are_distinct(watch)
        && is_between(1, MOST_BUDGET, parts.budget)
}

fn is_listed(count: usize) -> bool
    ensures { IsTrue result ↔ Between 1 MOST_LISTED count }
{
    1 <= count && count <= MOST_LISTED as usize
}

/// Whether a ward is one of those whose peak counts.
pub(crate) fn is_watched(watch: &[u32], ward: u32) -> bool
    ensures { result ≡ list_any (λ watched. watched == ward) watch.now }
{
    watch.iter().any(|watched| *watched == ward)
}

/// Whether the ward at a place, from 0, has no bed that is always taken, or its peak counts.
fn is_allowed(parts: &TableParts, place: u32) -> bool
    requires within { place < length parts.now.allow }
    requires few { place < MOST_MEMBERS }
    ensures { IsTrue result ↔ (is_watched parts.now (place + 1) ≡ false → slice_index parts.now.allow place ≡ 0) }
{
    if is_watched(parts.watch.as_slice(), place + 1) {
        true
    } else {
        parts.allow.as_slice()[place as usize] == 0
    }
}

/// Whether no bed is always taken on a ward whose peak doesn't count.
fn are_allowed(parts: &TableParts) -> bool
    requires { length parts.now.allow ≡ ward_count parts.now }
    ensures { IsTrue result ↔ ((place : ℕ) → place < ward_count parts.now → is_watched parts.now (place + 1) ≡ false → slice_index parts.now.allow place ≡ 0) }
{
    for place in 0..parts.wards.len() {
        if !is_allowed(parts, place) {
            return false;
        }
    }
    true
}

fn are_allowances(parts: &TableParts) -> bool
    ensures { IsTrue result ↔ AreAllowances parts.now }
{
    let wards = parts.wards.len() as usize;
    are_numbers(wards, 0, MOST_ALLOWANCE, parts.allow.as_slice()) && are_allowed(parts)
}

/// Whether all limits are met.
pub fn are_tables(parts: &TableParts) -> bool
    ensures { IsTrue result ↔ IsTables parts.now }
{
    are_slots(parts)
        && are_specialties(parts)
        && are_targets(parts)
        && are_needs(parts)
        && are_settings(parts)
        && are_allowances(parts)
}
