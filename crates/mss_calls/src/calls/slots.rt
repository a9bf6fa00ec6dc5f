use super::{FOUR_SLOTS, Given, given_parts, tables_of, two_blocks};
use mss_model::{Tables, Text};
use mss_tables::cycle_text;
use std::alloc::AllocGlobal;
use std::process::Abort;

#[test]
fn slots_have_days_and_rooms(rt: HostRuntime) {
    let tables = tables_of(&rt, &FOUR_SLOTS);
    for (slot, day, room) in [(0, 1, 1), (1, 1, 2), (2, 2, 1), (3, 2, 2)] {
        assert_slot(&rt, &tables, slot, day, room);
    }
}

fn assert_slot(rt: &impl Abort, tables: &Tables, slot: u32, day: u8, room: u8) {
    let known = slot < tables.slots();
    assert!(rt; known);
    assert_eq!(rt; (tables.day_of(slot), tables.room_of(slot)), (day, room));
}

/// Whether one room, open on the first day, is accepted in a cycle of so many days.
fn is_accepted(rt: &(impl AllocGlobal + Abort), days: u8) -> bool {
    let given = Given {
        days,
        rooms: &["A"],
        ..FOUR_SLOTS
    };
    Tables::new(given_parts(rt, &given, 1)).is_some()
}

#[test]
fn a_cycle_has_its_days(rt: HostRuntime) {
    assert!(rt; is_accepted(&rt, 1));
    assert!(rt; !is_accepted(&rt, 29));
}

/// The text of the cycle with a block in these two slots.
fn text_of(rt: &(impl AllocGlobal + Abort), tables: &Tables, first: u32, second: u32) -> Text {
    let cycle = two_blocks(rt, tables, first, second);
    match cycle_text(rt.alloc(), tables, &cycle) {
        Ok(text) => text,
        Err(_) => panic!(rt; "no memory"),
    }
}

#[test]
fn a_cycle_is_written(rt: HostRuntime) {
    let tables = tables_of(&rt, &FOUR_SLOTS);
    let text = text_of(&rt, &tables, 1, 3);
    drop(tables);
    assert_eq!(rt;
        text.bytes(),
        b"day,room,specialty\n1,B,X\n2,B,X\n".as_slice()
    );
}
