//! Calls of the crates below that no command makes, or of which a command shows too little: each once, with values
//! worked out from the definitions of the model.
ghost use Rattle.std.specs.Prelude.{◌≡◌, ◌<◌, length};
ghost use Rattle.std.specs.List.{All};
ghost use Rattle.mss_model.specs.PartsOf.{parts_of};
ghost use Rattle.mss_model.specs.TableWords.{option_count, slot_count};

mod alike;
mod bounds;
mod census;
mod certificates;
mod chances;
mod counting;
mod desks;
mod lists;
mod naming;
mod plans;
mod slots;

use mss_model::{Block, Blocks, Cycle, Names, Numbers, PARTS, TableParts, Tables};
use std::alloc::AllocGlobal;
use std::process::Abort;

/// What the tables of a test say. All else is left open: one ward that is watched, one specialty, and 480 minutes in
/// each slot.
#[derive(Clone, Copy)]
struct Given<'a> {
    days: u8,
    rooms: &'a [&'a str],
    patients: &'a [u32],
    stays: &'a [u32],
    low: u32,
    high: u32,
    allow: u32,
}

/// Two days and two rooms, and two blocks of two patients who stay a day.
const FOUR_SLOTS: Given<'static> = Given {
    days: 2,
    rooms: &["A", "B"],
    patients: &[0, 0, 1_000_000],
    stays: &[1_000_000],
    low: 960,
    high: 960,
    allow: 0,
};

/// These numbers as a list.
fn numbers(rt: &(impl AllocGlobal + Abort), values: &[u32]) -> Numbers {
    let mut list = Numbers::make(rt.alloc());
    for value in values {
        assert!(rt; list.push(*value).is_ok());
    }
    list
}

/// These names as a list.
fn names(rt: &(impl AllocGlobal + Abort), texts: &[&str]) -> Names {
    let mut list = Names::make(rt.alloc());
    for text in texts {
        let few = list.len() < 100;
        assert!(rt; few);
        assert!(rt; list.push(text.as_bytes()).is_ok());
    }
    list
}

/// The list of one block.
fn one_block(rt: &(impl AllocGlobal + Abort), patients: &[u32], stays: &[u32]) -> Blocks {
    let Some(block) = Block::new(PARTS, numbers(rt, patients), numbers(rt, stays)) else {
        panic!(rt; "no block");
    };
    let mut blocks = Blocks::make(rt.alloc());
    assert!(rt; blocks.push(block).is_ok());
    blocks
}

/// The parts of these tables, with lists for so many slots, at most 16.
fn given_parts(rt: &(impl AllocGlobal + Abort), given: &Given<'_>, slots: usize) -> TableParts {
    let days = usize::from(given.days);
    assert!(rt; slots <= 16 && days <= 30 && given.rooms.len() <= 16);
    TableParts {
        days: given.days,
        parts: PARTS,
        rooms: names(rt, given.rooms),
        minutes: numbers(rt, &[480; 16][..slots]),
        wards: names(rt, &["Main"]),
        specialties: names(rt, &["X"]),
        ward_of: numbers(rt, &[1]),
        daily: numbers(rt, &[16]),
        low: numbers(rt, &[given.low]),
        high: numbers(rt, &[given.high]),
        blocks: one_block(rt, given.patients, given.stays),
        equipment: names(rt, &[]),
        units: numbers(rt, &[]),
        needs: numbers(rt, &[]),
        unsuited: numbers(rt, &[0; 16][..given.rooms.len()]),
        barred: numbers(rt, &[0; 30][..days]),
        fixed: numbers(rt, &[0; 16][..slots]),
        level: 500_000,
        levels: numbers(rt, &[500_000]),
        watch: numbers(rt, &[1]),
        allow: numbers(rt, &[given.allow]),
        budget: 1_000,
    }
}

/// These tables.
fn tables_of(rt: &(impl AllocGlobal + Abort), given: &Given<'_>) -> Tables {
    let days = usize::from(given.days);
    assert!(rt; days <= 16 && given.rooms.len() <= 16);
    match Tables::new(given_parts(rt, given, days * given.rooms.len())) {
        Some(tables) => tables,
        None => panic!(rt; "no tables"),
    }
}

/// A cycle of these tables, with a block of the first specialty in two slots.
fn two_blocks(rt: &(impl AllocGlobal + Abort), tables: &Tables, first: u32, second: u32) -> Cycle
    ensures slots { length result ≡ slot_count (parts_of tables.now) }
    ensures options { All (λ option. option < option_count (parts_of tables.now)) result }
{
    let Ok(mut cycle) = Cycle::idle(rt.alloc(), tables.slots()) else {
        panic!(rt; "no memory");
    };
    let known = first < tables.slots() && second < tables.slots();
    assert!(rt; known);
    cycle.set(first, 1);
    cycle.set(second, 1);
    let specialties = tables.specialties();
    assert!(rt; cycle.options().iter().all(|option| *option <= specialties));
    cycle
}
