//! The floors of tables.
ghost use Rattle.std.specs.Prelude.{◌≡◌, ℕ, ◌+◌, ◌<◌, ◌≤◌, List, get_or, length, vec_len, map, IfOk};
ghost use Rattle.std.specs.List.{All};
ghost use Rattle.mss_model.specs.Limits.{Between};
ghost use Rattle.mss_model.specs.PartsOf.{parts_of};
ghost use Rattle.mss_model.specs.TableWords.{option_count, slot_count, specialty_count, block_of};
ghost use Rattle.mss_enclose.specs.Unit.{unit};
ghost use Rattle.mss_enclose.specs.Words.{masses_list, masses_room, mass_lists};
ghost use Rattle.mss_thin.specs.SteadyLists.{steady_lists};
ghost use Rattle.mss_floor.specs.FloorLists.{floor_of, choices, specialty_floor, steady_table, with_cumulative};

use crate::lowest::{adds_none, lowest_sums, take_growth};
use mss_enclose::{Enclosure, Kernel, MassList, Masses};
use mss_model::{NoMemory, Tables};
use mss_thin::steady;
use std::alloc::Global;
use std::marker::Model;

/// The most numbers of a steady list.
pub(crate) const FLOOR_ROOM: usize = 961;

/// The steady lists of all specialties, and memory for one floor. It is seen as these lists, one for each specialty and
/// offset.
#[derive(Drop)]
pub struct Floors {
    pub(crate) steady: Vec<MassList>,
    pub(crate) sums: Vec<u64>,
    pub(crate) floor: Masses,
}

impl Model for Floors {
    ghost use Rattle.std.specs.Prelude.{List, ℕ, map, vec_len};
    ghost use Rattle.mss_enclose.specs.Words.{mass_lists, masses_room};
    ghost use Rattle.mss_floor.specs.LowestSums.{AreFloors};

    ghost Value = { List (List (List ℕ)) };

    ghost view = { λ f. map mass_lists f.steady.items };

    ghost invariant = { λ f. AreFloors (vec_len f.sums) (masses_room f.floor) };
}

impl Floors {
    ghost use Rattle.std.specs.Borrow.{sem};
    ghost use Rattle.mss_floor.specs.FloorsRest.{StaysSame};

    /// Makes the steady lists of these tables.
    pub fn make<K: Kernel>(alloc: Global, kernel: &K, tables: &Tables) -> Result<Floors, NoMemory>
        ensures { IfOk result (λ f. f ≡ steady_table (parts_of tables.now)) }
    {
        let mut lists = Vec::new(alloc);
        for j in 0..tables.specialties() {
            lists.push(steady(alloc, kernel, tables.block(j + 1), tables.days())?)?;
        }
        let sums = vec![in alloc; 0; FLOOR_ROOM]?;
        let floor = Masses::make(alloc, FLOOR_ROOM)?;
        Ok(Floors {
            steady: lists,
            sums,
            floor,
        })
    }

    /// The floor of specialty j on its ward at a day: the least that one more block of j adds there. The tables are those of
    /// `make`. It takes no memory.
    pub fn floor_list(&mut self, tables: &Tables, prefix: &[u8], j: u8, day: u8) -> &Masses
        requires tables { self.old ≡ steady_table (parts_of tables.now) }
        requires long { length prefix.now ≤ slot_count (parts_of tables.now) }
        requires options { All (λ option. option < option_count (parts_of tables.now)) prefix.now }
        requires specialty { Between 1 (specialty_count (parts_of tables.now)) j }
        requires day { Between 1 (parts_of tables.now).days day }
        ensures* stays { sem 𝓛 (StaysSame self.entry) }
        ensures list { masses_list result.now ≡ specialty_floor (parts_of tables.now) prefix.now day j }
    {
        set_floor(
            &mut self.floor,
            &mut self.sums,
            &self.steady[usize::from(j) - 1],
            tables,
            prefix,
            j,
            day,
        );
        &self.floor
    }
}

/// Makes the list the floor of specialty j at a day, where the lists are the steady lists of j.
pub(crate) fn set_floor(
    floor: &mut Masses,
    sums: &mut [u64],
    lists: &MassList,
    tables: &Tables,
    prefix: &[u8],
    j: u8,
    day: u8,
)
    requires room { length sums.old ≡ FLOOR_ROOM }
    requires floor { masses_room floor.old ≡ FLOOR_ROOM }
    requires lists { mass_lists lists.now ≡ steady_lists (parts_of tables.now).days (block_of (parts_of tables.now) j) }
    requires long { length prefix.now ≤ slot_count (parts_of tables.now) }
    requires specialty { Between 1 (specialty_count (parts_of tables.now)) j }
    ensures list { masses_list floor.new ≡ floor_of (choices (parts_of tables.now) prefix.now j day) }
    ensures floor { masses_room floor.new ≡ FLOOR_ROOM }
    ensures room { length sums.new ≡ FLOOR_ROOM }
{
    if adds_none(lists, tables, prefix, j, day) {
        floor.reset();
        return;
    }
    let len = lowest_sums(sums, lists, tables, prefix, j, day);
    if len == 0 {
        floor.reset();
    } else {
        refill_front(floor, &mut sums[..len]);
    }
}

/// Makes the list that of the numbers which have these sums. The sums are lost.
fn refill_front(floor: &mut Masses, sums: &mut [u64])
    requires some { 0 < length sums.old }
    requires grows { (x : ℕ) → x + 1 < length sums.old → get_or sums.old x 0 ≤ get_or sums.old (x + 1) 0 }
    requires fits { (x : ℕ) → x < length sums.old → get_or sums.old x 0 ≤ unit }
    requires room { length sums.old ≤ masses_room floor.old }
    ensures list { masses_list floor.new ≡ with_cumulative (λ x. get_or sums.old x 0) (length sums.old) }
    ensures room { masses_room floor.new ≡ masses_room floor.old }
    ensures sums { length sums.new ≡ length sums.old }
{
    take_growth(sums);
    floor.refill(sums);
}
