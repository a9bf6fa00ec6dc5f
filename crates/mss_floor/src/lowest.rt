//! The greatest cumulative numbers of some lists.
ghost use Rattle.std.specs.Prelude.{◌≡◌, ℕ, ◌+◌, ◌-◌, ◌/◌, ◌<◌, ◌≤◌, Bool, ◌&&◌, ◌==◌, true, List, [], ◌∷◌, ◌++◌, get_or, length, max, min, nat_le, sum, if◌then◌else◌};
ghost use Rattle.std.specs.List.{range_with_len};
ghost use Rattle.mss_model.specs.Legality.{could_take, some_below};
ghost use Rattle.mss_model.specs.Limits.{Between};
ghost use Rattle.mss_model.specs.Occurrences.{offset};
ghost use Rattle.mss_model.specs.PartsOf.{parts_of};
ghost use Rattle.mss_model.specs.Percentile.{cumulative};
ghost use Rattle.mss_model.specs.TableWords.{room_count, block_of, day_of, slot_count, specialty_count};
ghost use Rattle.mss_enclose.specs.Kept.{raised};
ghost use Rattle.mss_enclose.specs.Unit.{unit};
ghost use Rattle.mss_enclose.specs.Words.{masses_list, mass_lists};
ghost use Rattle.mss_thin.specs.SteadyLists.{steady_lists};
ghost use Rattle.mss_floor.specs.FloorLists.{choices, floor_of, growth, steady_list};
ghost use Rattle.mss_floor.specs.LowestSums.{AreFull, AreSums, day_choice};

use crate::floors::FLOOR_ROOM;
use mss_enclose::{Enclosure, MassList, Masses};
use mss_model::Tables;
use mss_rules::could_take;

/// Leaves in the front of `sums` the greatest cumulative numbers of what one more block of specialty j may add on a day, as
/// many as the shortest of these lists has, and answers how many. The lists are the steady lists of j.
pub(crate) fn lowest_sums(
    sums: &mut [u64],
    lists: &MassList,
    tables: &Tables,
    prefix: &[u8],
    j: u8,
    day: u8,
) -> usize
    requires room { length sums.old ≡ FLOOR_ROOM }
    requires lists { mass_lists lists.now ≡ steady_lists (parts_of tables.now).days (block_of (parts_of tables.now) j) }
    requires long { length prefix.now ≤ slot_count (parts_of tables.now) }
    requires specialty { Between 1 (specialty_count (parts_of tables.now)) j }
    ensures sums { AreSums (choices (parts_of tables.now) prefix.now j day) sums.new result }
    ensures room { length sums.new ≡ FLOOR_ROOM }
    ensures few { result ≤ FLOOR_ROOM }
{
    let _slots = tables.slots();
    sums.fill(0);
    let mut len = 0;
    for place in 0..tables.days() {
        len = take_day(
            sums,
            len,
            lists,
            tables,
            j,
            day,
            place,
            is_open(tables, prefix.len() as u32, j, place),
        );
    }
    len
}

/// Takes the list of one more day, where the day counts. The answer is how many numbers count now, and was `len` before.
fn take_day(
    sums: &mut [u64],
    len: usize,
    lists: &MassList,
    tables: &Tables,
    j: u8,
    day: u8,
    place: u8,
    counts: bool,
) -> usize
    requires room { length sums.old ≡ FLOOR_ROOM }
    requires lists { mass_lists lists.now ≡ steady_lists (parts_of tables.now).days (block_of (parts_of tables.now) j) }
    requires place { place < (parts_of tables.now).days }
    requires few { len ≤ FLOOR_ROOM }
    ensures sums { (chosen : List (List ℕ)) → AreFull chosen → AreSums chosen sums.old len
        → AreSums (chosen ++ day_choice (parts_of tables.now) j day (place + 1) counts) sums.new result }
    ensures room { length sums.new ≡ FLOOR_ROOM }
    ensures few { result ≤ FLOOR_ROOM }
{
    if !counts {
        return len;
    }
    lower(sums, len, list_from(lists, tables, j, day, place))
}

/// Whether one of what one more block of specialty j may add on a day is the list of no patients, which then is its floor. The
/// lists are the steady lists of j.
pub(crate) fn adds_none(lists: &MassList, tables: &Tables, prefix: &[u8], j: u8, day: u8) -> bool
    requires lists { mass_lists lists.now ≡ steady_lists (parts_of tables.now).days (block_of (parts_of tables.now) j) }
    requires long { length prefix.now ≤ slot_count (parts_of tables.now) }
    requires specialty { Between 1 (specialty_count (parts_of tables.now)) j }
    ensures { result ≡ true → unit ∷ [] ≡ floor_of (choices (parts_of tables.now) prefix.now j day) }
{
    for place in first_day(tables, prefix)..tables.days() {
        if adds_none_from(lists, tables, prefix.len() as u32, j, day, place) {
            return true;
        }
    }
    false
}

/// The day, counted from 0, of the first slot that a prefix leaves undecided.
fn first_day(tables: &Tables, prefix: &[u8]) -> u8
    requires { length prefix.now ≤ slot_count (parts_of tables.now) }
    ensures { result ≡ length prefix.now / room_count (parts_of tables.now) }
{
    let _slots = tables.slots();
    (prefix.len() / usize::from(tables.rooms())) as u8
}

/// Whether specialty j could take a slot of a day `place`, counted from 0, of those from one on, and nobody of it is there on
/// `day`.
fn adds_none_from(lists: &MassList, tables: &Tables, from: u32, j: u8, day: u8, place: u8) -> bool
    requires lists { mass_lists lists.now ≡ steady_lists (parts_of tables.now).days (block_of (parts_of tables.now) j) }
    requires place { place < (parts_of tables.now).days }
    requires specialty { Between 1 (specialty_count (parts_of tables.now)) j }
    ensures short { result ≡ true → length (steady_list (parts_of tables.now).days (block_of (parts_of tables.now) j) (offset (parts_of tables.now).days day (place + 1))) ≡ 1 }
    ensures could { result ≡ true → true ≡ some_below (slot_count (parts_of tables.now) - from)
        (λ k. (day_of (parts_of tables.now) (from + k) == place + 1) && could_take (parts_of tables.now) (from + k) j) }
{
    list_from(lists, tables, j, day, place).len() == 1 && is_open(tables, from, j, place)
}

/// What a block of specialty j in a slot of a day `place`, counted from 0, adds on `day`.
fn list_from<'a>(lists: &'a MassList, tables: &Tables, j: u8, day: u8, place: u8) -> &'a Masses
    requires lists { mass_lists lists.now ≡ steady_lists (parts_of tables.now).days (block_of (parts_of tables.now) j) }
    requires place { place < (parts_of tables.now).days }
    ensures { masses_list result.now ≡ steady_list (parts_of tables.now).days (block_of (parts_of tables.now) j) (offset (parts_of tables.now).days day (place + 1)) }
{
    let days = u32::from(tables.days());
    let offset = (u32::from(day) + days - u32::from(place + 1)) % days;
    lists.get(offset)
}

/// Whether specialty j could take a slot of a day, counted from 0, of those from one on.
fn is_open(tables: &Tables, from: u32, j: u8, day: u8) -> bool
    requires day { day < (parts_of tables.now).days }
    requires specialty { Between 1 (specialty_count (parts_of tables.now)) j }
    ensures { result ≡ some_below (slot_count (parts_of tables.now) - from)
        (λ k. (day_of (parts_of tables.now) (from + k) == day + 1) && could_take (parts_of tables.now) (from + k) j) }
{
    let rooms = u32::from(tables.rooms());
    let first = u32::from(day) * rooms;
    for room in 0..rooms {
        if is_open_slot(tables, from, first + room, j) {
            return true;
        }
    }
    false
}

/// Whether a slot is one of those from one on, and specialty j could take it.
fn is_open_slot(tables: &Tables, from: u32, slot: u32, j: u8) -> bool
    requires slot { slot < slot_count (parts_of tables.now) }
    requires specialty { Between 1 (specialty_count (parts_of tables.now)) j }
    ensures { result ≡ (nat_le from slot && could_take (parts_of tables.now) slot j) }
{
    from <= slot && could_take(tables, slot, j)
}

/// Takes one list more: raises the numbers of the front to its cumulative numbers, with its rest on outcome 0. The answer
/// is how many numbers count now, and was `len` before.
fn lower(sums: &mut [u64], len: usize, list: &Masses) -> usize
    requires { length (masses_list list.now) ≤ length sums.old }
    ensures sums { (lists : List (List ℕ)) → AreFull lists → AreSums lists sums.old len
        → AreSums (lists ++ raised (masses_list list.now) ∷ []) sums.new result }
    ensures room { length sums.new ≡ length sums.old }
    ensures few { result ≤ length sums.old }
{
    raise_sums(sums, list.list(), list.rest());
    shorter(len, list.len() as usize)
}

/// The lesser of two numbers, where 0 stands for none.
fn shorter(len: usize, count: usize) -> usize
    ensures value { result ≡ (if len == 0 then count else min len count) }
    ensures few { result ≤ count }
{
    if len == 0 { count } else { len.min(count) }
}

/// Raises the numbers of the front to the cumulative numbers of a list, each with the rest.
fn raise_sums(sums: &mut [u64], list: &[u64], rest: u64)
    requires room { length list.now ≤ length sums.old }
    requires fits { rest + sum list.now ≤ unit }
    ensures room { length sums.new ≡ length sums.old }
    ensures front { (x : ℕ) → x < length list.now → get_or sums.new x 0 ≡ max (get_or sums.old x 0) (cumulative list.now x + rest) }
{
    let mut total = rest;
    for (x, number) in list.iter().enumerate() {
        total += *number;
        sums[x] = sums[x].max(total);
    }
}

/// Puts in the place of each number what it is more than the one before it.
pub(crate) fn take_growth(sums: &mut [u64])
    requires { (x : ℕ) → x + 1 < length sums.old → get_or sums.old x 0 ≤ get_or sums.old (x + 1) 0 }
    ensures room { length sums.new ≡ length sums.old }
    ensures growth { (x : ℕ) → x < length sums.old → get_or sums.new x 0 ≡ growth (λ y. get_or sums.old y 0) x }
{
    let mut before = 0;
    for x in 0..sums.len() {
        let sum = sums[x];
        sums[x] = sum - before;
        before = sum;
    }
}
