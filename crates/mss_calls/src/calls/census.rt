ghost use Rattle.std.specs.Prelude.{◌≡◌};
ghost use Rattle.mss_model.specs.PartsOf.{parts_of};
ghost use Rattle.mss_census.specs.WardLists.{lists_of};

use super::{FOUR_SLOTS, tables_of, two_blocks};
use mss_census::Census;
use mss_enclose::{Masses, Plain};
use mss_model::Tables;
use mss_pctl::{Peak, peak_pair};
use std::alloc::AllocGlobal;
use std::process::Abort;

/// A census of these tables.
fn census_of(rt: &(impl AllocGlobal + Abort), tables: &Tables) -> Census<Masses>
    ensures { result.lists ≡ lists_of (parts_of tables.now) }
{
    match Census::<Masses>::make(rt.alloc(), &Plain, tables) {
        Ok(census) => census,
        Err(_) => panic!(rt; "no memory"),
    }
}

#[test]
fn a_slot_that_is_passed_over_is_idle(rt: HostRuntime) {
    let tables = tables_of(&rt, &FOUR_SLOTS);
    pass_over(&rt, &tables);
}

fn pass_over(rt: &(impl AllocGlobal + Abort), tables: &Tables) {
    let known = 2 < tables.slots() && tables.specialties() == 1;
    assert!(rt; known);
    let mut census = census_of(rt, tables);
    census.restart(1, 2);
    census.push_slot(&Plain, tables, 2, 1);
    assert_idle_before(rt, &census);
}

fn assert_idle_before(rt: &impl Abort, census: &Census<Masses>) {
    assert_eq!(rt; census.next_slot(), 3);
    assert_eq!(rt; census.prefix(), [0, 0, 1].as_slice());
}

/// The peak of the cycle with a block in these two slots.
fn peak_of(rt: &(impl AllocGlobal + Abort), tables: &Tables, first: u32, second: u32) -> Peak {
    let cycle = two_blocks(rt, tables, first, second);
    let mut census = census_of(rt, tables);
    peak_pair(&Plain, &mut census, tables, &cycle)
}

#[test]
fn the_peak_is_where_two_blocks_meet(rt: HostRuntime) {
    let tables = tables_of(&rt, &FOUR_SLOTS);
    let peak = peak_of(&rt, &tables, 2, 3);
    drop(tables);
    assert_eq!(rt; (peak.low, peak.high, peak.ward, peak.day), (4, 4, 1, 2));
}
