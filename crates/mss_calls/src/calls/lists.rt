use super::{names, numbers, one_block};
use mss_model::{Block, Blocks, FINE_PARTS, Names, PARTS};
use std::alloc::AllocGlobal;
use std::process::Abort;

#[test]
fn lists_are_empty_at_first(rt: HostRuntime) {
    assert!(rt; Names::make(rt.alloc()).is_empty());
    assert!(rt; !names(&rt, &["A"]).is_empty());
    assert!(rt; Blocks::make(rt.alloc()).is_empty());
    assert!(rt; !one_block(&rt, &[1_000_000], &[1_000_000]).is_empty());
}

/// Whether these chances in so many parts are a block.
fn is_block(rt: &(impl AllocGlobal + Abort), parts: u32, patients: &[u32], stays: &[u32]) -> bool {
    let patients = numbers(rt, patients);
    Block::new(parts, patients, numbers(rt, stays)).is_some()
}

#[test]
fn blocks_within_the_limits(rt: HostRuntime) {
    let cases: [(u32, &[u32], &[u32], bool); 9] = [
        (PARTS, &[0, 1_000_000], &[500_000, 1_000_000], true),
        (PARTS, &[999_999], &[1_000_000], false),
        (PARTS, &[1_000_000], &[999_999], false),
        (PARTS, &[1_000_000], &[1_000_000, 1_000_000], false),
        (PARTS, &[], &[1_000_000], false),
        (PARTS, &[1_000_000], &[], false),
        (FINE_PARTS, &[1, 999_999_999], &[1_000_000_000], true),
        (FINE_PARTS, &[1_000_000], &[1_000_000], false),
        (1_000, &[1_000], &[1_000], false),
    ];
    for (parts, patients, stays, expected) in cases {
        assert!(rt; is_block(&rt, parts, patients, stays) == expected);
    }
}
