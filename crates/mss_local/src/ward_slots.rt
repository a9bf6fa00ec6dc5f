//! The slots of one ward, and its census from these alone.
ghost use Rattle.std.specs.Prelude.{◌≡◌, ◌<◌, ◌≤◌, length, take};
ghost use Rattle.std.specs.List.{All};
ghost use Rattle.mss_model.specs.PartsOf.{parts_of};
ghost use Rattle.mss_model.specs.TableWords.{option_count, slot_count};
ghost use Rattle.mss_enclose.specs.Kept.{kept_convolution};
ghost use Rattle.mss_census.specs.WardLists.{census_list, lists_of};
ghost use Rattle.mss_pctl.specs.CensusPeak.{kept_census};
ghost use Rattle.mss_local.specs.OwnSlots.{AreOwnSlots};

use mss_census::{Census, lies_on};
use mss_enclose::{Kernel, Masses};
use mss_model::Tables;

/// The most slots of a cycle.
pub(crate) const MOST_SLOTS: usize = 448;

/// Leaves the slots of a cycle whose specialties lie on a ward in the front of `found`, in order, and answers how many
/// there are.
pub(crate) fn find_slots(
    tables: &Tables,
    options: &[u8],
    ward: u8,
    found: &mut [u32; MOST_SLOTS],
) -> usize
    requires whole { length options.now ≡ slot_count (parts_of tables.now) }
    requires known { All (λ option. option < option_count (parts_of tables.now)) options.now }
    ensures few { result ≤ MOST_SLOTS }
    ensures own { AreOwnSlots (parts_of tables.now) ward options.now (take result found.new) }
{
    let _slots = tables.slots();
    let mut count = 0;
    for slot in 0..options.len() {
        if lies_on(tables, ward, options[slot]) {
            found[count] = slot as u32;
            count += 1;
        }
    }
    count
}

/// Makes the census of a ward on a day from the slots of the ward.
pub(crate) fn set_census<K: Kernel>(
    kernel: &K,
    tables: &Tables,
    census: &mut Census<Masses>,
    options: &[u8],
    slots: &[u32],
    ward: u8,
    day: u8,
)
    requires lists { census.old.lists ≡ lists_of (parts_of tables.now) }
    requires whole { length options.now ≡ slot_count (parts_of tables.now) }
    requires known { All (λ option. option < option_count (parts_of tables.now)) options.now }
    requires ward { 0 < ward }
    requires own { AreOwnSlots (parts_of tables.now) ward options.now slots.now }
    ensures lists { census.new.lists ≡ census.old.lists }
    ensures value { census_list kept_convolution census.new.lists census.new.ward census.new.day census.new.options
        ≡ kept_census (parts_of tables.now) options.now ward day }
{
    census.restart(ward, day);
    for place in 0..slots.len() {
        let slot = slots[place];
        census.push_slot(kernel, tables, slot, options[slot as usize]);
    }
}
