//! The bounds of the children of a prefix. They go on from its lists, and each differs from the child whose last slot is
//! idle on one ward alone: that of its last option.
ghost use Rattle.std.specs.Prelude.{◌≡◌, ℕ, ◌+◌, ◌*◌, ◌-◌, ◌^◌, ◌<◌, ◌≤◌, ◌==◌, ◌∷◌, [], ◌++◌, length, slice_index, if◌then◌else◌};
ghost use Rattle.std.specs.List.{All};
ghost use Rattle.mss_model.specs.Limits.{Between};
ghost use Rattle.mss_model.specs.PartsOf.{parts_of};
ghost use Rattle.mss_model.specs.TableWords.{slot_count, option_count, ward_count};
ghost use Rattle.mss_census.specs.WardLists.{lists_of};
ghost use Rattle.mss_floor.specs.FloorLists.{steady_table};
ghost use Rattle.mss_floor.specs.FlooredLists.{plain_list, floored_census};
ghost use Rattle.mss_floor.specs.ForcedBlocks.{AreForced};
ghost use Rattle.mss_pctl.specs.Peaks.{peak_places};
ghost use Rattle.mss_bounds.specs.CarriedLists.{IsHeld};
ghost use Rattle.mss_bounds.specs.Children.{IsIdleChild, idle_sibling, parent_of};
ghost use Rattle.mss_bounds.specs.PrefixBound.{bound_of, low_number};
ghost use Rattle.mss_bounds.specs.Spots.{place_of, places_of};

use crate::carried::Carried;
use crate::floored::Floored;
use crate::idle_child::{IdleChild, MOST_PLACES};
use crate::lists::go_on;
use crate::ward_days::WardDay;
use mss_census::{Census, lies_on};
use mss_enclose::{Count, Enclosure, Kernel};
use mss_floor::{forced, forced_counts};
use mss_model::{MOST_OPTIONS, Tables};
use mss_pctl::FirstLargest;

/// What is known of the child whose last slot is idle: it has the lists of its parent.
pub(crate) fn idle_over<E: Enclosure, K: Kernel>(
    kernel: &K,
    tables: &Tables,
    spots: &[WardDay],
    idle: &[u8],
    parent: &Carried<E>,
    floored: &mut Floored<E>,
    count: &mut Count,
) -> IdleChild
    requires spots { places_of spots.now ≡ peak_places (parts_of tables.now) }
    requires held { IsHeld E.joined (lists_of (parts_of tables.now)) (places_of spots.now) parent.now }
    requires idle { idle.now ≡ parent.now.prefix ++ 0 ∷ [] }
    requires long { length idle.now ≤ slot_count (parts_of tables.now) }
    requires options { All (λ option. option < option_count (parts_of tables.now)) idle.now }
    requires floors { floored.old ≡ steady_table (parts_of tables.now) }
    requires count { count.old ≤ 2 ^ 62 + 2 ^ 61 }
    ensures idle { IsIdleChild (floored_census E.joined) E.low_of (parts_of tables.now) idle.now result }
    ensures floors { floored.new ≡ floored.old }
{
    let blocks = forced_counts(tables, idle);
    let mut lows = [0; MOST_PLACES];
    for (place, spot) in spots.iter().enumerate() {
        let list = parent.list(place);
        let low = floored.low(kernel, tables, idle, &blocks, list, *spot, count);
        set_low(&mut lows, place, low);
    }
    IdleChild { lows, blocks }
}

/// Sets the number at a place.
fn set_low(lows: &mut [u32; MOST_PLACES], place: usize, low: u32)
    requires { place < MOST_PLACES }
    ensures { (i : ℕ) → i < MOST_PLACES → slice_index lows.new i ≡ (if i == place then low else slice_index lows.old i) }
{
    lows[place] = low;
}

/// The largest low number of a child, and the first place that has it, where its idle sibling is known.
pub(crate) fn child_over<E: Enclosure, K: Kernel>(
    kernel: &K,
    tables: &Tables,
    census: &mut Census<E>,
    spots: &[WardDay],
    child: &[u8],
    parent: &Carried<E>,
    idle: &IdleChild,
    floored: &mut Floored<E>,
    count: &mut Count,
) -> FirstLargest
    requires tables { census.old.lists ≡ lists_of (parts_of tables.now) }
    requires spots { places_of spots.now ≡ peak_places (parts_of tables.now) }
    requires held { IsHeld E.joined (lists_of (parts_of tables.now)) (places_of spots.now) parent.now }
    requires parent { parent.now.prefix ≡ parent_of child.now }
    requires some { 0 < length child.now }
    requires long { length child.now ≤ slot_count (parts_of tables.now) }
    requires options { All (λ option. option < option_count (parts_of tables.now)) child.now }
    requires idle { IsIdleChild (floored_census E.joined) E.low_of (parts_of tables.now) (idle_sibling child.now) idle.now }
    requires floors { floored.old ≡ steady_table (parts_of tables.now) }
    requires count { count.old ≤ 2 ^ 62 + 2 ^ 61 }
    ensures value { result ≡ bound_of (floored_census E.joined) E.low_of (parts_of tables.now) child.now }
    ensures lists { census.new.lists ≡ census.old.lists }
    ensures floors { floored.new ≡ floored.old }
{
    let blocks = sibling_counts(tables, child, &idle.blocks);
    let mut bound = FirstLargest::none();
    for (place, spot) in spots.iter().enumerate() {
        let low = child_low(
            kernel,
            tables,
            census,
            child,
            &blocks,
            parent.list(place),
            *spot,
            idle.lows[place],
            floored,
            count,
        );
        bound = bound.with(low, spot.ward, spot.day);
    }
    bound
}

/// How many blocks a child forces of each specialty, where those are given that its idle sibling forces.
fn sibling_counts(tables: &Tables, child: &[u8], idle: &[u32; MOST_OPTIONS]) -> [u32; MOST_OPTIONS]
    requires some { 0 < length child.now }
    requires long { length child.now ≤ slot_count (parts_of tables.now) }
    requires options { All (λ option. option < option_count (parts_of tables.now)) child.now }
    requires idle { AreForced (parts_of tables.now) (idle_sibling child.now) idle.now }
    ensures { AreForced (parts_of tables.now) child.now result }
{
    let option = child[child.len() - 1];
    let mut blocks = *idle;
    if option > 0 {
        blocks[usize::from(option)] = forced(tables, child, option);
    }
    blocks
}

/// The low number of a child at a ward and day, where the list of its parent there and the low number of its idle sibling
/// are given: another one only where the last option's patients lie on the ward.
fn child_low<E: Enclosure, K: Kernel>(
    kernel: &K,
    tables: &Tables,
    census: &mut Census<E>,
    child: &[u8],
    blocks: &[u32; MOST_OPTIONS],
    list: &E,
    spot: WardDay,
    idle: u32,
    floored: &mut Floored<E>,
    count: &mut Count,
) -> u32
    requires tables { census.old.lists ≡ lists_of (parts_of tables.now) }
    requires some { 0 < length child.now }
    requires long { length child.now ≤ slot_count (parts_of tables.now) }
    requires options { All (λ option. option < option_count (parts_of tables.now)) child.now }
    requires blocks { AreForced (parts_of tables.now) child.now blocks.now }
    requires ward { Between 1 (ward_count (parts_of tables.now)) spot.ward }
    requires day { Between 1 (parts_of tables.now).days spot.day }
    requires list { E.items list.now ≡ plain_list E.joined (parts_of tables.now) (parent_of child.now) spot.ward spot.day }
    requires idle { idle ≡ low_number (floored_census E.joined) E.low_of (parts_of tables.now) (idle_sibling child.now) (place_of spot) }
    requires floors { floored.old ≡ steady_table (parts_of tables.now) }
    requires count { count.old + 1 + slot_count (parts_of tables.now) ≤ 2 ^ 63 }
    ensures value { result ≡ low_number (floored_census E.joined) E.low_of (parts_of tables.now) child.now (place_of spot) }
    ensures lists { census.new.lists ≡ census.old.lists }
    ensures floors { floored.new ≡ floored.old }
    ensures count { count.new ≤ count.old + (slot_count (parts_of tables.now) + 1 - length child.now) }
{
    let _slots = tables.slots();
    let slot = child.len() - 1;
    if !lies_on(tables, spot.ward, child[slot]) {
        return idle;
    }
    census.resume(tables, spot.ward, spot.day, &child[..slot], list);
    go_on(kernel, tables, census, child, count);
    floored.low(kernel, tables, child, blocks, census.value(), spot, count)
}
