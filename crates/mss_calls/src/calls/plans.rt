use super::counting::Counting;
use super::{Given, tables_of};
use mss_cert::End;
use mss_enclose::Lean;
use mss_model::Tables;
use mss_rules::Legal;
use mss_search::{Planned, plan};
use std::alloc::AllocGlobal;
use std::process::Abort;

/// One day of sixteen rooms, and sixteen blocks of one patient, all of which are asked for.
const SIXTEEN_ROOMS: Given<'static> = Given {
    days: 1,
    rooms: &[
        "A", "B", "C", "D", "E", "F", "G", "H", "I", "J", "K", "L", "M", "N", "O", "P",
    ],
    patients: &[0, 1_000_000],
    stays: &[1_000_000],
    low: 7_680,
    high: 7_680,
    allow: 0,
};

/// The plan of these tables, over the legal cycles.
fn planned(rt: &(impl AllocGlobal + Abort), kernel: &Counting, tables: &Tables) -> Planned {
    match plan::<Lean, Counting, Legal>(rt.alloc(), tables, kernel, &Legal) {
        Ok(planned) => planned,
        Err(_) => panic!(rt; "no memory"),
    }
}

fn assert_optimal(rt: &impl Abort, planned: &Planned) {
    assert_eq!(rt; planned.upper, Some(16));
    assert_eq!(rt; planned.certificate.end, End::Lower { number: 16 });
    assert_eq!(rt; planned.turns, 17);
}

#[test]
fn a_plan_goes_on_from_carried_lists(rt: HostRuntime) {
    let tables = tables_of(&rt, &SIXTEEN_ROOMS);
    let kernel = Counting::start();
    let planned = planned(&rt, &kernel, &tables);
    assert_optimal(&rt, &planned);
    // The empty prefix has at most 16 floors. Where k blocks are placed, the lists take one more, the idle child at most
    // 16 - k floors, and the other child a block and at most 15 - k floors: 288 for k below 16. The full cycle's lists take
    // 16. From the empty prefix both children would take k blocks more.
    let calls = kernel.calls();
    drop(planned);
    drop(tables);
    assert!(rt; calls >= 16 && calls <= 320);
}
