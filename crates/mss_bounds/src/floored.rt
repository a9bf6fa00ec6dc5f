//! The low number of a prefix with its floors.
ghost use Rattle.std.specs.Prelude.{◌≡◌, ◌+◌, ◌-◌, ◌^◌, ◌<◌, ◌≤◌, length, IfOk};
ghost use Rattle.std.specs.List.{All};
ghost use Rattle.mss_model.specs.Limits.{Between};
ghost use Rattle.mss_model.specs.PartsOf.{parts_of};
ghost use Rattle.mss_model.specs.TableWords.{slot_count, option_count, ward_count};
ghost use Rattle.mss_floor.specs.FloorLists.{steady_table};
ghost use Rattle.mss_floor.specs.FlooredLists.{plain_list, floored_census};
ghost use Rattle.mss_floor.specs.ForcedBlocks.{AreForced};
ghost use Rattle.mss_bounds.specs.PrefixBound.{low_number};
ghost use Rattle.mss_bounds.specs.Spots.{place_of};

use crate::ward_days::WardDay;
use mss_census::CENSUS_ROOM;
use mss_enclose::{Count, Enclosure, Kernel, Scratch};
use mss_floor::Floors;
use mss_model::{MOST_OPTIONS, NoMemory, Tables};
use std::alloc::Global;
use std::marker::Model;

/// Floors, and a copy of a list onto which they are pushed. It is seen as the steady lists of the floors.
#[derive(Drop)]
pub(crate) struct Floored<E: Enclosure> {
    floors: Floors,
    copy: E,
    scratch: Scratch,
}

impl<E: Enclosure> Model for Floored<E> {
    ghost use Rattle.std.specs.Prelude.{List, ℕ};
    ghost use Rattle.mss_enclose.specs.Words.{scratch_room};
    ghost use Rattle.mss_bounds.specs.FlooredRoom.{HasRooms};

    ghost Value = { List (List (List ℕ)) };

    ghost view = { λ f. f.floors };

    ghost invariant = { λ f. HasRooms (E.size f.copy) (scratch_room f.scratch) };
}

impl<E: Enclosure> Floored<E> {
    /// Makes the floors of these tables, and room for each floored list.
    pub(crate) fn make<K: Kernel>(
        alloc: Global,
        kernel: &K,
        tables: &Tables,
    ) -> Result<Floored<E>, NoMemory>
        ensures { IfOk result (λ f. f ≡ steady_table (parts_of tables.now)) }
    {
        let floors = Floors::make(alloc, kernel, tables)?;
        let copy = E::make(alloc, CENSUS_ROOM)?;
        let scratch = Scratch::make(alloc, CENSUS_ROOM)?;
        Ok(Floored {
            floors,
            copy,
            scratch,
        })
    }

    /// The low number of a prefix at a ward and day, the ward's allowance included, where the blocks that it forces and its list
    /// without floors are given. The list stays as it is, and the pushes of floors are counted.
    pub(crate) fn low<K: Kernel>(
        &mut self,
        kernel: &K,
        tables: &Tables,
        prefix: &[u8],
        blocks: &[u32; MOST_OPTIONS],
        list: &E,
        spot: WardDay,
        count: &mut Count,
    ) -> u32
        requires tables { self.old ≡ steady_table (parts_of tables.now) }
        requires long { length prefix.now ≤ slot_count (parts_of tables.now) }
        requires options { All (λ option. option < option_count (parts_of tables.now)) prefix.now }
        requires blocks { AreForced (parts_of tables.now) prefix.now blocks.now }
        requires ward { Between 1 (ward_count (parts_of tables.now)) spot.ward }
        requires day { Between 1 (parts_of tables.now).days spot.day }
        requires list { E.items list.now ≡ plain_list E.joined (parts_of tables.now) prefix.now spot.ward spot.day }
        requires count { count.old + slot_count (parts_of tables.now) ≤ 2 ^ 63 }
        ensures value { result ≡ low_number (floored_census E.joined) E.low_of (parts_of tables.now) prefix.now (place_of spot) }
        ensures same { self.new ≡ self.old }
        ensures count { count.new ≤ count.old + (slot_count (parts_of tables.now) - length prefix.now) }
    {
        let _slots = tables.slots();
        self.copy.copy_from(list);
        self.floors.push_forced(
            &mut self.copy,
            kernel,
            tables,
            prefix,
            blocks,
            spot.ward,
            spot.day,
            &mut self.scratch,
            count,
        );
        tables.allow(spot.ward) + self.copy.low(tables.level())
    }
}
