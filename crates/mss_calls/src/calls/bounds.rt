ghost use Rattle.std.specs.Prelude.{◌<◌, ◌≤◌, length};
ghost use Rattle.std.specs.List.{All};
ghost use Rattle.mss_model.specs.PartsOf.{parts_of};
ghost use Rattle.mss_model.specs.TableWords.{option_count, slot_count};
ghost use Rattle.mss_bounds.specs.BounderView.{IsBounderOf};

use super::counting::Counting;
use super::{FOUR_SLOTS, tables_of};
use mss_bounds::Bounder;
use mss_enclose::{Count, Lean, Plain};
use mss_model::Tables;
use std::alloc::AllocGlobal;
use std::process::Abort;

/// What finds bounds for these tables.
fn bounder_of(rt: &(impl AllocGlobal + Abort), tables: &Tables) -> Bounder<Lean>
    ensures { IsBounderOf (parts_of tables.now) result }
{
    match Bounder::<Lean>::make(rt.alloc(), &Plain, tables) {
        Ok(bounder) => bounder,
        Err(_) => panic!(rt; "no memory"),
    }
}

/// Fails if this is no prefix of a cycle of these tables.
fn assert_prefix(rt: &impl Abort, tables: &Tables, prefix: &[u8])
    ensures long { length prefix.now ≤ slot_count (parts_of tables.now) }
    ensures options { All (λ option. option < option_count (parts_of tables.now)) prefix.now }
{
    let specialties = tables.specialties();
    assert!(rt; prefix.len() <= tables.slots() as usize);
    assert!(rt; prefix.iter().all(|option| *option <= specialties));
}

/// How many pushes the bound of a prefix makes, those of floors among them.
fn pushes(rt: &impl Abort, tables: &Tables, bounder: &mut Bounder<Lean>, prefix: &[u8]) -> u64
    requires { IsBounderOf (parts_of tables.now) bounder.old }
    ensures { IsBounderOf (parts_of tables.now) bounder.new }
{
    assert_prefix(rt, tables, prefix);
    let mut count = Count::start();
    bounder.bound_counted(&Plain, tables, prefix, &mut count);
    count.made()
}

/// How often the bound of a prefix calls the kernel.
fn calls(
    rt: &impl Abort,
    kernel: &Counting,
    tables: &Tables,
    bounder: &mut Bounder<Lean>,
    prefix: &[u8],
) -> u32
    requires { IsBounderOf (parts_of tables.now) bounder.old }
    ensures { IsBounderOf (parts_of tables.now) bounder.new }
{
    assert_prefix(rt, tables, prefix);
    let before = kernel.calls();
    bounder.bound(kernel, tables, prefix);
    kernel.calls().saturating_sub(before)
}

/// The pushes of three bounds in turn: of a prefix, of the same prefix again, and of one that goes on from it.
fn three_pushes(rt: &(impl AllocGlobal + Abort), tables: &Tables) -> [u64; 3] {
    let mut bounder = bounder_of(rt, tables);
    let first = pushes(rt, tables, &mut bounder, &[0, 1, 0]);
    let again = pushes(rt, tables, &mut bounder, &[0, 1, 0]);
    let longer = pushes(rt, tables, &mut bounder, &[0, 1, 0, 1]);
    [first, again, longer]
}

#[test]
fn a_bound_goes_on_from_what_is_carried(rt: HostRuntime) {
    let tables = tables_of(&rt, &FOUR_SLOTS);
    let [first, again, longer] = three_pushes(&rt, &tables);
    drop(tables);
    assert!(rt; first <= 8 && again <= 2 && longer <= 2);
}

/// The calls of the kernel of two bounds of one prefix.
fn two_calls(rt: &(impl AllocGlobal + Abort), tables: &Tables) -> (u32, u32) {
    let kernel = Counting::start();
    let mut bounder = bounder_of(rt, tables);
    let first = calls(rt, &kernel, tables, &mut bounder, &[1, 1]);
    let again = calls(rt, &kernel, tables, &mut bounder, &[1, 1]);
    (first, again)
}

#[test]
fn a_second_bound_convolves_nothing(rt: HostRuntime) {
    let tables = tables_of(&rt, &FOUR_SLOTS);
    let (first, again) = two_calls(&rt, &tables);
    drop(tables);
    assert!(rt; first >= 1 && again == 0);
}
