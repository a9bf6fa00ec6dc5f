ghost use Rattle.std.specs.Prelude.{◌≡◌, ◌<◌, IsTrue, length};
ghost use Rattle.std.specs.List.{All};
ghost use Rattle.mss_model.specs.PartsOf.{parts_of};
ghost use Rattle.mss_model.specs.TableWords.{option_count, slot_count};

use super::{FOUR_SLOTS, tables_of, two_blocks};
use mss_alike::{alike, canonical_of};
use mss_model::{Cycle, Tables};
use mss_rules::{Legal, Rules};
use std::alloc::AllocGlobal;
use std::process::Abort;

#[test]
fn rooms_of_one_day_are_alike(rt: HostRuntime) {
    let tables = tables_of(&rt, &FOUR_SLOTS);
    assert_first_two_alike(&rt, &tables);
}

fn assert_first_two_alike(rt: &impl Abort, tables: &Tables) {
    let known = tables.slots() == 4;
    assert!(rt; known);
    assert!(rt; alike(tables, 0, 1));
    assert!(rt; !alike(tables, 1, 2));
}

/// Whether a cycle is one that the rules admit.
fn is_member<R: Rules>(rules: &R, tables: &Tables, cycle: &[u8]) -> bool
    requires whole { length cycle.now ≡ slot_count (parts_of tables.now) }
    requires known { All (λ option. option < option_count (parts_of tables.now)) cycle.now }
    ensures { IsTrue result → R.Member (parts_of tables.now) cycle.now }
{
    rules.dead(tables, cycle).is_none()
}

/// The canonical cycle of a legal one.
fn canonical(rt: &(impl AllocGlobal + Abort), tables: &Tables, cycle: &Cycle) -> Cycle
    requires whole { length cycle.now ≡ slot_count (parts_of tables.now) }
    requires known { All (λ option. option < option_count (parts_of tables.now)) cycle.now }
{
    assert!(rt; is_member(&Legal, tables, cycle.options()));
    match canonical_of(rt.alloc(), tables, cycle) {
        Ok(canonical) => canonical,
        Err(_) => panic!(rt; "no memory"),
    }
}

/// The canonical cycle of the one with a block in the first room on both days.
fn both_days(rt: &(impl AllocGlobal + Abort), tables: &Tables) -> Cycle {
    let cycle = two_blocks(rt, tables, 0, 2);
    canonical(rt, tables, &cycle)
}

#[test]
fn each_day_has_its_block_in_the_later_room(rt: HostRuntime) {
    let tables = tables_of(&rt, &FOUR_SLOTS);
    let cycle = both_days(&rt, &tables);
    drop(tables);
    assert_eq!(rt; cycle.options(), [0, 1, 0, 1].as_slice());
}
