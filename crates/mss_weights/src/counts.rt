//! How many slots and blocks there are.
ghost use Rattle.std.specs.Prelude.{◌≡◌, ℕ, ◌+◌, ◌-◌, ◌*◌, ◌/◌, ◌<◌, ◌≤◌, ◌==◌, if◌then◌else◌};
ghost use Rattle.mss_model.specs.Legality.{could_take};
ghost use Rattle.mss_model.specs.Limits.{Between};
ghost use Rattle.mss_model.specs.PartsOf.{parts_of};
ghost use Rattle.mss_model.specs.TableWords.{minutes_at, slot_count, specialty_count};
ghost use Rattle.mss_weights.specs.Prices.{open_one, open_slots, slots_for, most_blocks};
ghost use Rattle.mss_weights.specs.Needed.{longest_slot, needed_blocks};

use mss_model::{MOST_MINUTES, Tables};
use mss_rules::could_take;

/// 1 for a slot that has minutes.
fn open_one(tables: &Tables, slot: u32) -> u32
    requires { slot < slot_count (parts_of tables.now) }
    ensures value { result ≡ open_one (parts_of tables.now) slot }
    ensures few { result ≤ 1 }
{
    if tables.minutes(slot) == 0 { 0 } else { 1 }
}

/// How many slots of a day have minutes.
#[tactic(auto, using(crate::proofs::PowerBounds::sum_more))]
pub(crate) fn open_slots(tables: &Tables, day: u8) -> u32
    requires day { Between 1 (parts_of tables.now).days day }
    ensures { result ≡ open_slots (parts_of tables.now) day }
{
    let mut count = 0;
    for slot in 0..tables.slots() {
        if tables.day_of(slot) == day {
            count += open_one(tables, slot);
        }
    }
    count
}

/// How many slots of a day a specialty could take.
#[tactic(auto, using(crate::proofs::PowerBounds::sum_more))]
fn slots_for(tables: &Tables, day: u8, j: u8) -> u32
    requires day { Between 1 (parts_of tables.now).days day }
    requires specialty { Between 1 (specialty_count (parts_of tables.now)) j }
    ensures { result ≡ slots_for (parts_of tables.now) day j }
{
    let mut count = 0;
    for slot in 0..tables.slots() {
        if tables.day_of(slot) == day {
            if could_take(tables, slot, j) {
                count += open_one(tables, slot);
            }
        }
    }
    count
}

/// The most blocks of a specialty on a day.
pub(crate) fn most_blocks(tables: &Tables, day: u8, j: u8) -> u32
    requires day { Between 1 (parts_of tables.now).days day }
    requires specialty { Between 1 (specialty_count (parts_of tables.now)) j }
    ensures { result ≡ most_blocks (parts_of tables.now) day j }
{
    tables.daily(j).min(slots_for(tables, day, j))
}

/// The minutes that a specialty could have in a slot.
fn possible_minutes(tables: &Tables, slot: u32, j: u8) -> u32
    requires slot { slot < slot_count (parts_of tables.now) }
    requires specialty { Between 1 (specialty_count (parts_of tables.now)) j }
    ensures value { ◌≡◌ {A = ℕ} result (if could_take (parts_of tables.now) slot j then minutes_at (parts_of tables.now) slot else 0) }
    ensures few { result ≤ MOST_MINUTES }
{
    if could_take(tables, slot, j) {
        tables.minutes(slot)
    } else {
        0
    }
}

/// The minutes of the longest slot that a specialty could take.
#[tactic(auto, using(crate::proofs::NeededBlocks::largest_more))]
fn longest_slot(tables: &Tables, j: u8) -> u32
    requires specialty { Between 1 (specialty_count (parts_of tables.now)) j }
    ensures value { result ≡ longest_slot (parts_of tables.now) j }
    ensures few { result ≤ MOST_MINUTES }
{
    let mut longest = 0;
    for slot in 0..tables.slots() {
        longest = possible_minutes(tables, slot, j).max(longest);
    }
    longest
}

/// How many blocks a specialty needs at least.
pub(crate) fn needed_blocks(tables: &Tables, j: u8) -> u32
    requires specialty { Between 1 (specialty_count (parts_of tables.now)) j }
    ensures { result ≡ needed_blocks (parts_of tables.now) j }
{
    let longest = longest_slot(tables, j);
    if longest == 0 {
        0
    } else {
        (tables.low(j) + (longest - 1)) / longest
    }
}
