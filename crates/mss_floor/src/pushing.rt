//! Pushes of floors onto the list of a prefix.
ghost use Rattle.std.specs.Prelude.{◌≡◌, ℕ, ◌+◌, ◌-◌, ◌<◌, ◌^◌, ◌≤◌, List, [], ◌∷◌, ◌++◌, length, map, max, replicate, if◌then◌else◌};
ghost use Rattle.std.specs.List.{All};
ghost use Rattle.mss_model.specs.Census.{census};
ghost use Rattle.mss_model.specs.Legality.{IsLegal};
ghost use Rattle.mss_model.specs.Percentile.{percentile_at};
ghost use Rattle.mss_model.specs.Limits.{Between};
ghost use Rattle.mss_model.specs.Occurrences.{lies_on};
ghost use Rattle.mss_model.specs.PartsOf.{parts_of};
ghost use Rattle.mss_model.specs.TableWords.{option_count, slot_count, specialty_count};
ghost use Rattle.mss_enclose.specs.Kept.{joined_all, lean_convolution, LeanStands};
ghost use Rattle.mss_enclose.specs.Words.{masses_list, scratch_room};
ghost use Rattle.mss_floor.specs.FloorLists.{specialty_floor, steady_table};
ghost use Rattle.mss_floor.specs.FlooredLists.{fitting, floored_list, LiesBelow};
ghost use Rattle.mss_floor.specs.ForcedBlocks.{AreForced, forced};

use crate::floors::{Floors, set_floor};
use crate::forcing::forced_counts;
use mss_census::CENSUS_ROOM;
use mss_enclose::{Count, Enclosure, Kernel, Masses, Scratch};
use mss_model::{MOST_OPTIONS, Tables};

impl Floors {
    /// Pushes the floors of a prefix at a ward and day onto its list there, and counts the pushes. What comes of it lies at
    /// or below the census of every legal cycle that the prefix begins. The tables are those of `make`. It takes no memory.
    pub fn push_floors<E: Enclosure, K: Kernel>(
        &mut self,
        value: &mut E,
        kernel: &K,
        tables: &Tables,
        prefix: &[u8],
        ward: u8,
        day: u8,
        scratch: &mut Scratch,
        count: &mut Count,
    )
        requires tables { self.old ≡ steady_table (parts_of tables.now) }
        requires long { length prefix.now ≤ slot_count (parts_of tables.now) }
        requires options { All (λ option. option < option_count (parts_of tables.now)) prefix.now }
        requires day { Between 1 (parts_of tables.now).days day }
        requires room { E.size value.old ≡ CENSUS_ROOM }
        requires scratch { scratch_room scratch.old ≡ CENSUS_ROOM }
        requires count { count.old + slot_count (parts_of tables.now) ≤ 2 ^ 63 }
        ensures value { E.items value.new ≡ floored_list E.joined (parts_of tables.now) prefix.now ward day (E.items value.old) }
        ensures low { (rest : List ℕ) (level : ℕ) → IsLegal (parts_of tables.now) (prefix.now ++ rest)
            → E.stands_for (E.items value.old) (census (parts_of tables.now) ward day prefix.now)
            → E.low_of (E.items value.new) level ≤ percentile_at (census (parts_of tables.now) ward day (prefix.now ++ rest)) level }
        ensures below { (rest list : List ℕ) → IsLegal (parts_of tables.now) (prefix.now ++ rest)
            → LeanStands list (census (parts_of tables.now) ward day prefix.now)
            → LiesBelow (floored_list lean_convolution (parts_of tables.now) prefix.now ward day list) (census (parts_of tables.now) ward day (prefix.now ++ rest)) }
        ensures count { count.new ≤ count.old + (slot_count (parts_of tables.now) - length prefix.now) }
        ensures same { self.new ≡ self.old }
        ensures room { E.size value.new ≡ CENSUS_ROOM }
        ensures scratch { scratch_room scratch.new ≡ CENSUS_ROOM }
    {
        let blocks = forced_counts(tables, prefix);
        self.push_forced(
            value, kernel, tables, prefix, &blocks, ward, day, scratch, count,
        );
    }

    /// The same, where the blocks that the prefix forces are known: a prefix that is asked for at many places counts them once.
    pub fn push_forced<E: Enclosure, K: Kernel>(
        &mut self,
        value: &mut E,
        kernel: &K,
        tables: &Tables,
        prefix: &[u8],
        blocks: &[u32; MOST_OPTIONS],
        ward: u8,
        day: u8,
        scratch: &mut Scratch,
        count: &mut Count,
    )
        requires tables { self.old ≡ steady_table (parts_of tables.now) }
        requires long { length prefix.now ≤ slot_count (parts_of tables.now) }
        requires options { All (λ option. option < option_count (parts_of tables.now)) prefix.now }
        requires blocks { AreForced (parts_of tables.now) prefix.now blocks.now }
        requires day { Between 1 (parts_of tables.now).days day }
        requires room { E.size value.old ≡ CENSUS_ROOM }
        requires scratch { scratch_room scratch.old ≡ CENSUS_ROOM }
        requires count { count.old + slot_count (parts_of tables.now) ≤ 2 ^ 63 }
        ensures value { E.items value.new ≡ floored_list E.joined (parts_of tables.now) prefix.now ward day (E.items value.old) }
        ensures count { count.new ≤ count.old + (slot_count (parts_of tables.now) - length prefix.now) }
        ensures same { self.new ≡ self.old }
        ensures room { E.size value.new ≡ CENSUS_ROOM }
        ensures scratch { scratch_room scratch.new ≡ CENSUS_ROOM }
    {
        let mut left = tables.slots() - prefix.len() as u32;
        for j in 0..tables.specialties() {
            left = self.push_specialty(
                value,
                kernel,
                tables,
                prefix,
                blocks,
                ward,
                day,
                scratch,
                j + 1,
                left,
                count,
            );
        }
    }

    /// Pushes the floors of one specialty, where it lies on the ward, and at most `left`. The answer is how many more may be
    /// pushed.
    fn push_specialty<E: Enclosure, K: Kernel>(
        &mut self,
        value: &mut E,
        kernel: &K,
        tables: &Tables,
        prefix: &[u8],
        blocks: &[u32; MOST_OPTIONS],
        ward: u8,
        day: u8,
        scratch: &mut Scratch,
        j: u8,
        left: u32,
        count: &mut Count,
    ) -> u32
        requires tables { self.old ≡ steady_table (parts_of tables.now) }
        requires long { length prefix.now ≤ slot_count (parts_of tables.now) }
        requires options { All (λ option. option < option_count (parts_of tables.now)) prefix.now }
        requires blocks { AreForced (parts_of tables.now) prefix.now blocks.now }
        requires specialty { Between 1 (specialty_count (parts_of tables.now)) j }
        requires day { Between 1 (parts_of tables.now).days day }
        requires room { E.size value.old ≡ CENSUS_ROOM }
        requires scratch { scratch_room scratch.old ≡ CENSUS_ROOM }
        requires count { count.old + left ≤ 2 ^ 63 }
        ensures pushed { (fs : List (List ℕ)) →
            joined_all E.joined (E.items value.old) (fitting left (length (E.items value.old))
            (map (specialty_floor (parts_of tables.now) prefix.now day)
            (if lies_on (parts_of tables.now).ward_of ward j then replicate (forced (parts_of tables.now) prefix.now j) j else []) ++ fs))
            ≡ joined_all E.joined (E.items value.new) (fitting result (length (E.items value.new)) fs) }
        ensures count { count.new + result ≤ count.old + left }
        ensures same { self.new ≡ self.old }
        ensures room { E.size value.new ≡ CENSUS_ROOM }
        ensures scratch { scratch_room scratch.new ≡ CENSUS_ROOM }
    {
        if tables.ward_of(j) != ward {
            return left;
        }
        let blocks = blocks[usize::from(j)];
        if blocks == 0 {
            return left;
        }
        set_floor(
            &mut self.floor,
            &mut self.sums,
            &self.steady[usize::from(j) - 1],
            tables,
            prefix,
            j,
            day,
        );
        push_copies(value, kernel, &self.floor, blocks, scratch, left, count)
    }
}

/// Pushes a floor so many times, and at most `left`. The answer is how many more may be pushed.
fn push_copies<E: Enclosure, K: Kernel>(
    value: &mut E,
    kernel: &K,
    floor: &Masses,
    blocks: u32,
    scratch: &mut Scratch,
    left: u32,
    count: &mut Count,
) -> u32
    requires room { E.size value.old ≡ CENSUS_ROOM }
    requires scratch { scratch_room scratch.old ≡ CENSUS_ROOM }
    requires count { count.old + left ≤ 2 ^ 63 }
    ensures pushed { (fs : List (List ℕ)) →
        joined_all E.joined (E.items value.old) (fitting left (length (E.items value.old)) (replicate blocks (masses_list floor.now) ++ fs))
        ≡ joined_all E.joined (E.items value.new) (fitting result (length (E.items value.new)) fs) }
    ensures count { count.new + result ≤ count.old + left }
    ensures room { E.size value.new ≡ CENSUS_ROOM }
    ensures scratch { scratch_room scratch.new ≡ CENSUS_ROOM }
{
    let mut left = left;
    for _i in 0..blocks.min(left) {
        left = push_one(value, kernel, floor, scratch, left, count);
    }
    left
}

/// Pushes a floor, where one more may be pushed and the list doesn't get too long. The answer is how many more may be
/// pushed.
fn push_one<E: Enclosure, K: Kernel>(
    value: &mut E,
    kernel: &K,
    floor: &Masses,
    scratch: &mut Scratch,
    left: u32,
    count: &mut Count,
) -> u32
    requires room { E.size value.old ≡ CENSUS_ROOM }
    requires scratch { scratch_room scratch.old ≡ CENSUS_ROOM }
    requires count { count.old + left ≤ 2 ^ 63 }
    ensures pushed { (fs : List (List ℕ)) →
        joined_all E.joined (E.items value.old) (fitting left (length (E.items value.old)) (masses_list floor.now ∷ fs))
        ≡ joined_all E.joined (E.items value.new) (fitting result (length (E.items value.new)) fs) }
    ensures count { count.new + result ≤ count.old + left }
    ensures fewer { result < max 1 left }
    ensures room { E.size value.new ≡ CENSUS_ROOM }
    ensures scratch { scratch_room scratch.new ≡ CENSUS_ROOM }
{
    let length = value.list().len() + floor.len() as usize;
    if left == 0 || length > CENSUS_ROOM + 1 {
        return 0;
    }
    value.push_counted(kernel, floor, scratch, count);
    left - 1
}
