ghost use Rattle.std.specs.Prelude.{◌≡◌, ◌<◌, ◌≤◌, length, sum};
ghost use Rattle.mss_enclose.specs.Unit.{unit};
ghost use Rattle.mss_enclose.specs.Words.{masses_list};

use mss_enclose::{Enclosure, Kernel, Lean, Masses, Plain, Scratch, UNIT, decimal_text, down, up};
use mss_pctl::day_lines;
use mss_thin::ThinRow;
use std::alloc::AllocGlobal;
use std::process::Abort;

const HALF: u64 = UNIT / 2;

#[test]
fn decimals_are_rounded_down_and_up(rt: HostRuntime) {
    assert_eq!(rt; (down(0), up(0)), (0, 0));
    assert_eq!(rt; (down(1), up(1)), (0, 1));
    assert_eq!(rt;
        (down(UNIT), up(UNIT)),
        (1_000_000_000_000, 1_000_000_000_000)
    );
    assert_eq!(rt; down(345_876_451_382_054_092), 299_999_999_999);
    assert_eq!(rt; up(345_876_451_382_054_093), 300_000_000_001);
}

#[test]
fn decimals_are_written(rt: HostRuntime) {
    let cases = [
        (1_500_000, 6, "1.500000"),
        (0, 6, "0.000000"),
        (7, 6, "0.000007"),
        (299_999_999_999, 12, "0.299999999999"),
    ];
    for (value, places, wanted) in cases {
        let known = places == 6 || places == 12;
        assert!(rt; known);
        let Ok(text) = decimal_text(rt.alloc(), value, places) else {
            panic!(rt; "no memory");
        };
        assert_eq!(rt; text.bytes(), wanted.as_bytes());
    }
}

#[test]
fn products_are_rounded_down(rt: HostRuntime) {
    let mut one = [7];
    Plain.convolve(&[UNIT - 1], &[UNIT - 1], &mut one);
    assert_eq!(rt; one, [1_152_921_504_606_846_974]);
    let mut three = [7, 7, 7];
    Plain.convolve(&[1, 1], &[1, 1], &mut three);
    assert_eq!(rt; three, [0, 0, 0]);
}

/// The convolution of a list with two halves.
fn with_halves(rt: &(impl AllocGlobal + Abort), list: &[u64]) -> Vec<u64>
    requires some { 0 < length list.now }
    requires few { length list.now < 100 }
    requires fits { sum list.now ≤ unit }
{
    let Ok(mut out) = vec![in rt.alloc(); 7; list.len() + 1] else {
        panic!(rt; "no memory");
    };
    Plain.convolve(list, &[HALF, HALF], &mut out);
    out
}

/// Fails if the convolution of a list with two halves isn't this one.
fn assert_halved(rt: &(impl AllocGlobal + Abort), list: &[u64], wanted: &[u64])
    requires some { 0 < length list.now }
    requires few { length list.now < 100 }
    requires fits { sum list.now ≤ unit }
{
    assert_eq!(rt; with_halves(rt, list).as_slice(), wanted);
}

#[test]
fn a_list_is_moved_and_halved(rt: HostRuntime) {
    assert_halved(&rt, &[UNIT], &[HALF, HALF]);
    assert_halved(
        &rt,
        &[0, 0, 0, 0, 0, 0, UNIT],
        &[0, 0, 0, 0, 0, 0, HALF, HALF],
    );
    assert_halved(
        &rt,
        &[0, 0, 0, 0, 0, 0, 0, UNIT],
        &[0, 0, 0, 0, 0, 0, 0, HALF, HALF],
    );
    assert_halved(
        &rt,
        &[0, 0, 0, 0, 0, 0, 0, 0, UNIT],
        &[0, 0, 0, 0, 0, 0, 0, 0, HALF, HALF],
    );
    let list = [0, 0, 0, 0, 0, 0, 0, 0, 0, 0, 0, 0, 0, 0, 0, 0, UNIT];
    let halves = [0, 0, 0, 0, 0, 0, 0, 0, 0, 0, 0, 0, 0, 0, 0, 0, HALF, HALF];
    assert_halved(&rt, &list, &halves);
}

#[test]
fn a_thinning_row(rt: HostRuntime) {
    assert_eq!(rt;
        ThinRow::of(1_000_000, 300_000, 1).weights(),
        [807_045_053_224_792_883, 345_876_451_382_054_092].as_slice()
    );
    assert_eq!(rt;
        ThinRow::of(1_000_000, 1_000_000, 2).weights(),
        [0, 0, UNIT].as_slice()
    );
}

/// The kept list of these numbers.
fn masses_of(rt: &(impl AllocGlobal + Abort), list: &[u64]) -> Masses
    requires some { 0 < length list.now }
    requires few { length list.now < 100 }
    requires fits { sum list.now ≤ unit }
    ensures list { masses_list result ≡ list.now }
{
    match Masses::take(rt.alloc(), list) {
        Ok(masses) => masses,
        Err(_) => panic!(rt; "no memory"),
    }
}

#[test]
fn kept_numbers_enclose(rt: HostRuntime) {
    let list = masses_of(&rt, &[HALF - 1, HALF / 2, HALF / 2 - 1]);
    assert_enclosed(&rt, &list);
}

fn assert_enclosed(rt: &impl Abort, list: &Masses)
    requires { length (masses_list list.now) ≡ 3 }
{
    assert_eq!(rt; (list.rest(), list.mass(0)), (2, (HALF - 1, HALF + 1)));
    assert_eq!(rt;
        list.cumulative(1),
        (HALF - 1 + HALF / 2, HALF + 1 + HALF / 2)
    );
    assert_eq!(rt; (list.low(500_000), list.high(500_000)), (0, 1));
    assert_eq!(rt; (list.low(750_000), list.high(750_000)), (1, 2));
}

#[test]
fn what_is_wanting_lies_at_outcome_0(rt: HostRuntime) {
    let mut sum = sum_of_one(&rt);
    assert_sum(&rt, &sum, &[HALF + 1, HALF - 1]);
    assert_eq!(rt; (sum.low(500_000), sum.low(500_001), sum.room()), (0, 1, 3));
    sum.reset();
    assert_sum(&rt, &sum, &[UNIT]);
}

/// The sum of one list of two numbers, which lacks two parts.
fn sum_of_one(rt: &(impl AllocGlobal + Abort)) -> Lean {
    let part = masses_of(rt, &[HALF - 1, HALF - 1]);
    let (Ok(mut sum), Ok(mut scratch)) = (Lean::make(rt.alloc(), 3), Scratch::make(rt.alloc(), 3))
    else {
        panic!(rt; "no memory");
    };
    sum.push(&Plain, &part, &mut scratch);
    sum
}

fn assert_sum(rt: &impl Abort, sum: &Lean, wanted: &[u64]) {
    assert_eq!(rt; sum.list(), wanted);
}

#[test]
fn the_lines_of_a_day(rt: HostRuntime) {
    let Ok(list) = Masses::take(rt.alloc(), &[HALF, HALF]) else {
        panic!(rt; "no memory");
    };
    let Ok(text) = day_lines(rt.alloc(), 1, b"census", &list, &[500_000]) else {
        panic!(rt; "no memory");
    };
    let wanted = b"day 1 census mean 0.500000 0.500000
day 1 census level 500000 pair 0 0
day 1 census point 0 exactly 0.500000000000 0.500000000000 at most 0.500000000000 0.500000000000
day 1 census point 1 exactly 0.500000000000 0.500000000000 at most 1.000000000000 1.000000000000
";
    assert_eq!(rt; text.bytes(), wanted.as_slice());
}
