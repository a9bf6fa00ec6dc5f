//! The allowances of the wards.
ghost use Rattle.std.specs.Prelude.{◌≡◌, ◌<◌, ◌==◌, length, position, IfOk, IfSome};
ghost use Rattle.mss_tables.specs.Allowances.{allow_of, allowance};

use mss_model::{NoMemory, Numbers};
use std::alloc::Global;

/// The place of a ward among the watched ones.
fn place_in(watch: &[u32], ward: u32) -> Option<usize>
    ensures value { result ≡ position (λ watched. watched == ward) watch.now }
    ensures within { IfSome result (λ place. place < length watch.now) }
{
    watch.iter().position(|watched| *watched == ward)
}

/// The allowance beside a ward's number in the watch list, and 0 where it isn't there.
fn allowance(watch: &[u32], allow: &[u32], ward: u32) -> u32
    requires { length allow.now ≡ length watch.now }
    ensures { result ≡ allowance watch.now allow.now ward }
{
    match place_in(watch, ward) {
        Some(place) => allow[place],
        None => 0,
    }
}

/// The allowance of each of so many wards.
pub(crate) fn allow_of(
    alloc: Global,
    watch: &[u32],
    allow: &[u32],
    wards: u32,
) -> Result<Numbers, NoMemory>
    requires { length allow.now ≡ length watch.now }
    ensures { IfOk result (λ numbers. numbers ≡ allow_of watch.now allow.now wards) }
{
    let mut numbers = Numbers::make(alloc);
    for place in 0..wards {
        numbers.push(allowance(watch, allow, place + 1))?;
    }
    Ok(numbers)
}
