//! Full kept lists as an enclosure: they lie at or below what they stand for, and their rule puts each rest on outcome 0.
ghost use Rattle.std.specs.Prelude.{◌≡◌, ℕ, ◌+◌, ◌<◌, ◌≤◌, length, sum, take};
ghost use Rattle.mss_enclose.specs.Unit.{unit};
ghost use Rattle.mss_enclose.specs.Kept.{raised, lean_convolution, LeanStands, lean_low};
ghost use Rattle.mss_enclose.specs.LeanLaws.{length-lean_convolution, lean-start, lean-push, lean_low-at_most, lean-near, lean_low-near};
ghost use Rattle.mss_enclose.specs.Words.{lean_list, lean_room};

use crate::decimals::UNIT;
use crate::enclosure::Enclosure;
use crate::kernel::Kernel;
use crate::lean::Lean;
use crate::masses::{Masses, rest_after};
use crate::masses_enclosure::{convolve_front, copy_front};
use crate::reaching::first_reached;
use crate::scratch::Scratch;
use mss_model::NoMemory;
use std::alloc::Global;

impl Enclosure for Lean {
    ghost items = { lean_list };

    ghost size = { lean_room };

    ghost joined = { lean_convolution };

    ghost stands_for = { LeanStands };

    ghost low_of = { lean_low };

    ghost starts = { lean-start };

    ghost sums = { lean-push };

    ghost low_at_most = { lean_low-at_most };

    ghost keeps_near = { lean-near };

    ghost low_at_least = { lean_low-near };

    ghost joined_length = { length-lean_convolution };

    fn make(alloc: Global, room: usize) -> Result<Self, NoMemory> {
        let mut numbers = vec![in alloc; 0; room]?;
        numbers[0] = UNIT;
        Ok(Lean { numbers, len: 1 })
    }

    fn reset(&mut self) {
        self.numbers[0] = UNIT;
        self.len = 1;
    }

    /// A part of one number is raised to the list of no patients, which leaves every list as it is.
    #[tactic(auto, using(crate::proofs::OneNumber::one_number))]
    fn push<K: Kernel>(&mut self, kernel: &K, part: &Masses, scratch: &mut Scratch) {
        if part.len() == 1 {
            return;
        }
        let len = full_front(
            kernel,
            self.list(),
            part.list(),
            &mut scratch.part,
            &mut scratch.numbers,
        );
        copy_front(&mut self.numbers, &scratch.numbers[..len]);
        self.len = len;
    }

    fn copy_from(&mut self, other: &Self) {
        copy_front(&mut self.numbers, other.list());
        self.len = other.len;
    }

    fn low(&self, level: u32) -> u32 {
        first_reached(self.list(), 0, level)
    }

    fn list(&self) -> &[u64] {
        &self.numbers[..self.len]
    }

    fn room(&self) -> usize {
        self.numbers.len()
    }
}

/// Leaves the full convolution in the front of `out`, and answers its length. The part is copied to `raised_part`.
fn full_front<K: Kernel>(
    kernel: &K,
    a: &[u64],
    part: &[u64],
    raised_part: &mut [u64],
    out: &mut [u64],
) -> usize
    requires a_some { 0 < length a.now }
    requires part_some { 0 < length part.now }
    requires a_full { sum a.now ≡ unit }
    requires part_fits { sum part.now ≤ unit }
    requires part_room { length part.now ≤ length raised_part.old }
    requires room { length a.now + length part.now ≤ length out.old + 1 }
    ensures front { take result out.new ≡ lean_convolution a.now part.now }
    ensures len { result + 1 ≡ length a.now + length part.now }
    ensures full { sum (take result out.new) ≡ unit }
{
    raised_front(part, raised_part);
    let len = convolve_front(kernel, a, &raised_part[..part.len()], out);
    raise(&mut out[..len]);
    len
}

/// Leaves a copy of the part, with its rest on outcome 0, in the front of `to`.
fn raised_front(part: &[u64], to: &mut [u64])
    requires some { 0 < length part.now }
    requires fits { sum part.now ≤ unit }
    requires room { length part.now ≤ length to.old }
    ensures { take (length part.now) to.new ≡ raised part.now }
{
    copy_front(to, part);
    raise(&mut to[..part.len()]);
}

/// Puts what the list lacks of 2^60 on outcome 0.
fn raise(list: &mut [u64])
    requires some { 0 < length list.old }
    requires fits { sum list.old ≤ unit }
    ensures { list.new ≡ raised list.old }
{
    let rest = rest_after(list);
    list[0] += rest;
}
