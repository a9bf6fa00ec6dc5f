//! How many blocks a specialty must still get.
ghost use Rattle.std.specs.Prelude.{◌≡◌, ℕ, ◌+◌, ◌-◌, ◌<◌, ◌≤◌, ◌==◌, List, ◌++◌, length, max, slice_index, if◌then◌else◌};
ghost use Rattle.std.specs.List.{All};
ghost use Rattle.mss_model.specs.Legality.{IsLegal};
ghost use Rattle.mss_model.specs.Limits.{Between};
ghost use Rattle.mss_model.specs.PartsOf.{parts_of};
ghost use Rattle.mss_model.specs.Peak.{largest_below};
ghost use Rattle.mss_model.specs.TableWords.{option_count, slot_count, specialty_count};
ghost use Rattle.mss_floor.specs.ForcedBlocks.{AreForced, blocks_for, blocks_from, forced, open_minutes};

use mss_model::{MOST_OPTIONS, Tables};
use mss_rules::{could_take, got};

/// The minutes that a specialty could have in a slot.
fn open_minutes(tables: &Tables, slot: u32, j: u8) -> u32
    requires slot { slot < slot_count (parts_of tables.now) }
    requires specialty { Between 1 (specialty_count (parts_of tables.now)) j }
    ensures value { result ≡ open_minutes (parts_of tables.now) j slot }
{
    if could_take(tables, slot, j) {
        tables.minutes(slot)
    } else {
        0
    }
}

/// The greater of the minutes so far and those that a specialty could have in a slot. A slot that has no more minutes isn't
/// asked about.
#[tactic(auto, using(crate::proofs::BlockCounts::longer_slots))]
fn longer(tables: &Tables, slot: u32, j: u8, longest: u32) -> u32
    requires slot { slot < slot_count (parts_of tables.now) }
    requires specialty { Between 1 (specialty_count (parts_of tables.now)) j }
    ensures { result ≡ max longest (open_minutes (parts_of tables.now) j slot) }
{
    if tables.minutes(slot) <= longest {
        return longest;
    }
    open_minutes(tables, slot, j).max(longest)
}

/// The greatest minutes of a slot from one on that a specialty could take.
#[tactic(auto, using(crate::proofs::BlockCounts::largest_more))]
fn longest(tables: &Tables, from: u32, j: u8) -> u32
    requires from { from ≤ slot_count (parts_of tables.now) }
    requires specialty { Between 1 (specialty_count (parts_of tables.now)) j }
    ensures { result ≡ largest_below (slot_count (parts_of tables.now) - from) (λ k. open_minutes (parts_of tables.now) j (from + k)) }
{
    let mut longest = 0;
    for place in 0..tables.slots() - from {
        longest = longer(tables, from + place, j, longest);
    }
    longest
}

/// The least number of blocks of so many minutes that make up what is missing, or 0 where they have none.
#[tactic(auto, using(crate::proofs::BlockCounts::block_counts))]
fn blocks_for(missing: u32, minutes: u32) -> u32
    ensures { result ≡ blocks_for missing minutes }
{
    if minutes == 0 {
        return 0;
    }
    missing.div_ceil(minutes)
}

/// How many blocks of specialty j a prefix forces: the least number of blocks, each in the longest of the undecided slots
/// that j could take, that makes up the low minutes that j misses. It takes no memory.
#[tactic(auto, using(crate::specs::NeededBlocksLaws::forced_rules))]
pub fn forced(tables: &Tables, prefix: &[u8], j: u8) -> u32
    requires long { length prefix.now ≤ slot_count (parts_of tables.now) }
    requires options { All (λ option. option < option_count (parts_of tables.now)) prefix.now }
    requires specialty { Between 1 (specialty_count (parts_of tables.now)) j }
    ensures value { result ≡ forced (parts_of tables.now) prefix.now j }
    ensures given { (rest : List ℕ) → IsLegal (parts_of tables.now) (prefix.now ++ rest)
        → result ≤ blocks_from (parts_of tables.now) j (length prefix.now) rest }
{
    let _slots = tables.slots();
    let missing = tables.low(j).saturating_sub(got(tables, prefix, j));
    if missing == 0 {
        return 0;
    }
    blocks_for(missing, longest(tables, prefix.len() as u32, j))
}

/// How many blocks a prefix forces of each specialty, at the place of its number. It takes no memory.
pub fn forced_counts(tables: &Tables, prefix: &[u8]) -> [u32; MOST_OPTIONS]
    requires long { length prefix.now ≤ slot_count (parts_of tables.now) }
    requires options { All (λ option. option < option_count (parts_of tables.now)) prefix.now }
    ensures { AreForced (parts_of tables.now) prefix.now result }
{
    let mut blocks = [0; MOST_OPTIONS];
    for j in 0..tables.specialties() {
        set_count(&mut blocks, j + 1, forced(tables, prefix, j + 1));
    }
    blocks
}

/// Sets the number at a place.
fn set_count(blocks: &mut [u32; MOST_OPTIONS], j: u8, count: u32)
    requires { j < MOST_OPTIONS }
    ensures { (i : ℕ) → i < MOST_OPTIONS → slice_index blocks.new i ≡ (if i == j then count else slice_index blocks.old i) }
{
    blocks[usize::from(j)] = count;
}
