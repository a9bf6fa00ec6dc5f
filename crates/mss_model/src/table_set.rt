//! Tables within the limits.
ghost use Rattle.std.specs.Prelude.{◌≡◌, ◌↔◌, ℕ, ◌<◌, ◌≤◌, length, not, IsSome, IfSome};
ghost use Rattle.mss_model.specs.BlockAtAge.{IsParts, IsBlock};
ghost use Rattle.mss_model.specs.Limits.{Between, AreBetween, IsTables};
ghost use Rattle.mss_model.specs.TableWords.{room_count, slot_count, specialty_count, ward_count, kind_count, day_of, room_of, minutes_at, block_of, ward_at, daily_at, low_at, high_at, units_at, need_at, is_unsuited, is_barred, fixed_at, is_watched, allow_at, name_at};

use crate::limits::{
    MOST_ALLOWANCE, MOST_BUDGET, MOST_DAILY, MOST_DAYS, MOST_KINDS, MOST_LEVEL, MOST_LISTED,
    MOST_MINUTES, MOST_ROOMS, MOST_SLOTS, MOST_SPECIALTIES, MOST_TARGET, MOST_UNITS, MOST_WARDS,
    are_tables, is_watched,
};
use crate::one_block::Block;
use crate::parts::TableParts;

/// The tables of a hospital, within the limits. Days, rooms, specialties, wards and kinds of equipment count from 1,
/// and slots from 0, day by day and within a day room by room. No call but `new` can fail, and none takes memory.
#[derive(Debug, Drop)]
pub struct Tables {
    parts: TableParts,
    ghost good: { IsTables parts },
}

impl Tables {
    ghost use Rattle.mss_model.specs.PartsOf.{parts_of};

    /// The tables of these parts, if the parts are within the limits.
    pub fn new(parts: TableParts) -> Option<Tables>
        ensures exact { IsSome result ↔ IsTables parts }
        ensures same { IfSome result (λ t. parts_of t ≡ parts) }
    {
        if are_tables(&parts) {
            Some(Tables { parts })
        } else {
            None
        }
    }

    pub fn days(&self) -> u8
        ensures value { result ≡ (parts_of self.now).days }
        ensures limits { Between 1 MOST_DAYS result }
    {
        self.parts.days
    }

    /// The parts of each chance.
    pub fn parts(&self) -> u32
        ensures value { result ≡ (parts_of self.now).parts }
        ensures limits { IsParts result }
    {
        self.parts.parts
    }

    pub fn rooms(&self) -> u8
        ensures value { result ≡ room_count (parts_of self.now) }
        ensures limits { Between 1 MOST_ROOMS result }
    {
        self.parts.rooms.len() as u8
    }

    pub fn slots(&self) -> u32
        ensures value { result ≡ slot_count (parts_of self.now) }
        ensures limits { Between 1 MOST_SLOTS result }
    {
        u32::from(self.parts.days) * self.parts.rooms.len()
    }

    pub fn specialties(&self) -> u8
        ensures value { result ≡ specialty_count (parts_of self.now) }
        ensures limits { Between 1 MOST_SPECIALTIES result }
    {
        self.parts.specialties.len() as u8
    }

    pub fn wards(&self) -> u8
        ensures value { result ≡ ward_count (parts_of self.now) }
        ensures limits { Between 1 MOST_WARDS result }
    {
        self.parts.wards.len() as u8
    }

    /// The number of kinds of equipment.
    pub fn kinds(&self) -> u8
        ensures value { result ≡ kind_count (parts_of self.now) }
        ensures limits { result ≤ MOST_KINDS }
    {
        self.parts.equipment.len() as u8
    }

    pub fn minutes(&self, slot: u32) -> u32
        requires { slot < slot_count (parts_of self.now) }
        ensures value { result ≡ minutes_at (parts_of self.now) slot }
        ensures limits { result ≤ MOST_MINUTES }
    {
        self.parts.minutes.as_slice()[slot as usize]
    }

    pub fn day_of(&self, slot: u32) -> u8
        requires { slot < slot_count (parts_of self.now) }
        ensures value { result ≡ day_of (parts_of self.now) slot }
        ensures limits { Between 1 (parts_of self.now).days result }
    {
        (slot / self.parts.rooms.len() + 1) as u8
    }

    pub fn room_of(&self, slot: u32) -> u8
        requires { slot < slot_count (parts_of self.now) }
        ensures value { result ≡ room_of (parts_of self.now) slot }
        ensures limits { Between 1 (room_count (parts_of self.now)) result }
    {
        (slot % self.parts.rooms.len() + 1) as u8
    }

    /// The block of specialty j.
    pub fn block(&self, j: u8) -> &Block
        requires { Between 1 (specialty_count (parts_of self.now)) j }
        ensures value { result.now ≡ block_of (parts_of self.now) j }
        ensures good { IsBlock result.now }
        ensures parts { result.now.parts ≡ (parts_of self.now).parts }
    {
        self.parts.blocks.get(u32::from(j) - 1)
    }

    /// The ward of specialty j.
    pub fn ward_of(&self, j: u8) -> u8
        requires { Between 1 (specialty_count (parts_of self.now)) j }
        ensures value { result ≡ ward_at (parts_of self.now) j }
        ensures limits { Between 1 (ward_count (parts_of self.now)) result }
    {
        self.parts.ward_of.as_slice()[usize::from(j) - 1] as u8
    }

    /// The most blocks of specialty j on one day.
    pub fn daily(&self, j: u8) -> u32
        requires { Between 1 (specialty_count (parts_of self.now)) j }
        ensures value { result ≡ daily_at (parts_of self.now) j }
        ensures limits { result ≤ MOST_DAILY }
    {
        self.parts.daily.as_slice()[usize::from(j) - 1]
    }

    /// The least minutes of specialty j in a cycle.
    pub fn low(&self, j: u8) -> u32
        requires { Between 1 (specialty_count (parts_of self.now)) j }
        ensures value { result ≡ low_at (parts_of self.now) j }
        ensures limits { result ≤ MOST_TARGET }
    {
        self.parts.low.as_slice()[usize::from(j) - 1]
    }

    /// The most minutes of specialty j in a cycle.
    pub fn high(&self, j: u8) -> u32
        requires { Between 1 (specialty_count (parts_of self.now)) j }
        ensures value { result ≡ high_at (parts_of self.now) j }
        ensures limits { Between (low_at (parts_of self.now) j) MOST_TARGET result }
    {
        self.parts.high.as_slice()[usize::from(j) - 1]
    }

    /// The units of a kind of equipment.
    pub fn units(&self, kind: u8) -> u32
        requires { Between 1 (kind_count (parts_of self.now)) kind }
        ensures value { result ≡ units_at (parts_of self.now) kind }
        ensures limits { result ≤ MOST_UNITS }
    {
        self.parts.units.as_slice()[usize::from(kind) - 1]
    }

    /// The units of a kind of equipment that a block of specialty j takes.
    pub fn need(&self, j: u8, kind: u8) -> u32
        requires specialty { Between 1 (specialty_count (parts_of self.now)) j }
        requires kind { Between 1 (kind_count (parts_of self.now)) kind }
        ensures value { result ≡ need_at (parts_of self.now) j kind }
        ensures limits { result ≤ MOST_UNITS }
    {
        let place = (usize::from(j) - 1) * self.parts.equipment.len() as usize
            + (usize::from(kind) - 1);
        self.parts.needs.as_slice()[place]
    }

    /// Whether a room suits specialty j.
    pub fn suits(&self, j: u8, room: u8) -> bool
        requires specialty { Between 1 (specialty_count (parts_of self.now)) j }
        requires room { Between 1 (room_count (parts_of self.now)) room }
        ensures { result ≡ not (is_unsuited (parts_of self.now) j room) }
    {
        let place = (usize::from(j) - 1) * self.parts.rooms.len() as usize
            + (usize::from(room) - 1);
        self.parts.unsuited.as_slice()[place] != 1
    }

    /// Whether specialty j is barred on a day.
    pub fn barred(&self, j: u8, day: u8) -> bool
        requires specialty { Between 1 (specialty_count (parts_of self.now)) j }
        requires day { Between 1 (parts_of self.now).days day }
        ensures { result ≡ is_barred (parts_of self.now) j day }
    {
        let place = (usize::from(j) - 1) * usize::from(self.parts.days) + (usize::from(day) - 1);
        self.parts.barred.as_slice()[place] == 1
    }

    /// The option that a slot is to have, where it isn't free.
    pub fn fixed(&self, slot: u32) -> Option<u8>
        requires { slot < slot_count (parts_of self.now) }
        ensures value { result ≡ fixed_at (parts_of self.now) slot }
        ensures limits { IfSome result (λ option. option ≤ specialty_count (parts_of self.now)) }
    {
        let code = self.parts.fixed.as_slice()[slot as usize];
        if code == 0 {
            None
        } else {
            Some((code - 1) as u8)
        }
    }

    /// The level of the peak, in millionths.
    pub fn level(&self) -> u32
        ensures value { result ≡ (parts_of self.now).level }
        ensures limits { Between 1 MOST_LEVEL result }
    {
        self.parts.level
    }

    /// The levels of the report, in millionths.
    pub fn levels(&self) -> &[u32]
        ensures value { result.now ≡ (parts_of self.now).levels }
        ensures limits { AreBetween 1 MOST_LEVEL result.now }
        ensures count { Between 1 MOST_LISTED (length result.now) }
    {
        self.parts.levels.as_slice()
    }

    /// Whether the peak of a ward counts.
    pub fn watched(&self, ward: u8) -> bool
        requires { Between 1 (ward_count (parts_of self.now)) ward }
        ensures { result ≡ is_watched (parts_of self.now) ward }
    {
        is_watched(self.parts.watch.as_slice(), u32::from(ward))
    }

    /// The beds of a ward that are always taken; 0 where its peak doesn't count.
    pub fn allow(&self, ward: u8) -> u32
        requires { Between 1 (ward_count (parts_of self.now)) ward }
        ensures value { result ≡ allow_at (parts_of self.now) ward }
        ensures limits { result ≤ MOST_ALLOWANCE }
    {
        self.parts.allow.as_slice()[usize::from(ward) - 1]
    }

    /// The most turns of the search.
    pub fn budget(&self) -> u32
        ensures value { result ≡ (parts_of self.now).budget }
        ensures limits { Between 1 MOST_BUDGET result }
    {
        self.parts.budget
    }

    pub fn room_name(&self, room: u8) -> &[u8]
        requires { Between 1 (room_count (parts_of self.now)) room }
        ensures { result.now ≡ name_at (parts_of self.now).rooms room }
    {
        self.parts.rooms.get(u32::from(room) - 1)
    }

    pub fn specialty_name(&self, j: u8) -> &[u8]
        requires { Between 1 (specialty_count (parts_of self.now)) j }
        ensures { result.now ≡ name_at (parts_of self.now).specialties j }
    {
        self.parts.specialties.get(u32::from(j) - 1)
    }

    pub fn ward_name(&self, ward: u8) -> &[u8]
        requires { Between 1 (ward_count (parts_of self.now)) ward }
        ensures { result.now ≡ name_at (parts_of self.now).wards ward }
    {
        self.parts.wards.get(u32::from(ward) - 1)
    }

    pub fn kind_name(&self, kind: u8) -> &[u8]
        requires { Between 1 (kind_count (parts_of self.now)) kind }
        ensures { result.now ≡ name_at (parts_of self.now).equipment kind }
    {
        self.parts.equipment.get(u32::from(kind) - 1)
    }
}
