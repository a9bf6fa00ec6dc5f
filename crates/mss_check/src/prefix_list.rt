//! The list of a prefix on which the numbers of a certificate rest.
ghost use Rattle.std.specs.Prelude.{◌≡◌, ℕ, ◌<◌, ◌≤◌, length, IfOk};
ghost use Rattle.std.specs.List.{All};
ghost use Rattle.mss_model.specs.Limits.{Between};
ghost use Rattle.mss_model.specs.PartsOf.{parts_of};
ghost use Rattle.mss_model.specs.TableWords.{slot_count, option_count};
ghost use Rattle.mss_census.specs.WardLists.{lists_of};
ghost use Rattle.mss_floor.specs.FloorLists.{steady_table};
ghost use Rattle.mss_check.specs.Validity.{list_of};

use mss_census::{CENSUS_ROOM, Census};
use mss_enclose::{Count, Enclosure, Kernel, Scratch};
use mss_floor::Floors;
use mss_model::{NoMemory, Tables};
use std::alloc::Global;
use std::marker::Model;

/// The list of a prefix at a ward and day on which the numbers of a certificate of a version rest. It is seen as the
/// version, the lists that its tables gave, and the list of the prefix that was set last.
#[derive(Drop)]
pub(crate) struct PrefixList<E: Enclosure> {
    version: u32,
    census: Census<E>,
    floors: Floors,
    list: E,
    scratch: Scratch,
}

impl<E: Enclosure> Model for PrefixList<E> {
    ghost use Rattle.mss_enclose.specs.Words.{scratch_room};
    ghost use Rattle.mss_check.specs.PrefixLists.{PrefixListView, IsRoomy};

    ghost Value = { PrefixListView };

    ghost view = { λ l. record { version = l.version; lists = l.census.lists; steady = l.floors; list = E.items l.list } };

    ghost invariant = { λ l. IsRoomy (E.size l.list) (scratch_room l.scratch) };
}

impl<E: Enclosure> PrefixList<E> {
    ghost use Rattle.mss_check.specs.PrefixLists.{IsListOf};

    /// Makes the lists of these tables and takes all memory.
    pub(crate) fn make<K: Kernel>(
        alloc: Global,
        kernel: &K,
        tables: &Tables,
        version: u32,
    ) -> Result<PrefixList<E>, NoMemory>
        ensures tables { IfOk result (IsListOf (parts_of tables.now)) }
        ensures version { IfOk result (λ l. l.version ≡ version) }
    {
        let census = Census::<E>::make(alloc, kernel, tables)?;
        let floors = Floors::make(alloc, kernel, tables)?;
        let list = E::make(alloc, CENSUS_ROOM)?;
        let scratch = Scratch::make(alloc, CENSUS_ROOM)?;
        Ok(PrefixList {
            version,
            census,
            floors,
            list,
            scratch,
        })
    }

    /// Makes it the list of a prefix at a ward and day. The tables are those of `make`. It takes no memory.
    pub(crate) fn set_prefix<K: Kernel>(
        &mut self,
        kernel: &K,
        tables: &Tables,
        prefix: &[u8],
        ward: u8,
        day: u8,
    )
        requires tables { IsListOf (parts_of tables.now) self.old }
        requires ward { 0 < ward }
        requires day { Between 1 (parts_of tables.now).days day }
        requires long { length prefix.now ≤ slot_count (parts_of tables.now) }
        requires options { All (λ option. option < option_count (parts_of tables.now)) prefix.now }
        ensures list { self.new.list ≡ list_of E.joined self.old.version (parts_of tables.now) prefix.now ward day }
        ensures version { self.new.version ≡ self.old.version }
        ensures tables { IsListOf (parts_of tables.now) self.new }
    {
        let _slots = tables.slots();
        self.census.set_prefix(kernel, tables, prefix, ward, day);
        self.list.copy_from(self.census.value());
        if self.version == 1 {
            return;
        }
        self.floors.push_floors(
            &mut self.list,
            kernel,
            tables,
            prefix,
            ward,
            day,
            &mut self.scratch,
            &mut Count::start(),
        );
    }

    /// The list of the prefix that was set last.
    pub(crate) fn list(&self) -> &E
        ensures { E.items result.now ≡ self.now.list }
    {
        &self.list
    }
}
