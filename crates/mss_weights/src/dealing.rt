//! Blocks dealt to the days on which they cost least.

use crate::lists::{at, fill, put};

/// What the blocks of a specialty cost: the dearest of them, and all together.
#[derive(Clone, Copy)]
pub(crate) struct Dealt {
    pub(crate) dearest: u64,
    pub(crate) all: u64,
}

/// Deals so many blocks of a specialty to its cheapest days, where each day has a most number of blocks.
pub(crate) fn deal(needed: u64, most: &[u64], costs: &[u64], blocks: &mut [u64]) -> Dealt {
    fill(blocks, 0);
    let mut left = needed;
    let mut dealt = Dealt { dearest: 0, all: 0 };
    for _day in 0..costs.len() {
        if left == 0 {
            return dealt;
        }
        let Some(day) = cheapest(most, costs, blocks) else {
            return dealt;
        };
        let count = left.min(at(most, day));
        put(blocks, day, count);
        left = left.saturating_sub(count);
        let cost = at(costs, day);
        dealt = Dealt {
            dearest: cost,
            all: dealt.all.saturating_add(cost.saturating_mul(count)),
        };
    }
    dealt
}

/// The first of the cheapest days that could have blocks and have none yet.
fn cheapest(most: &[u64], costs: &[u64], blocks: &[u64]) -> Option<usize> {
    let mut cheapest = None;
    let mut least = u64::MAX;
    for day in 0..costs.len() {
        let is_free = at(blocks, day) == 0 && at(most, day) > 0;
        if is_free && (cheapest.is_none() || costs[day] < least) {
            cheapest = Some(day);
            least = costs[day];
        }
    }
    cheapest
}
