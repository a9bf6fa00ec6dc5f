ghost use Rattle.std.specs.Prelude.{◌≡◌, ◌↔◌, ℕ, ◌*◌, ◌≤◌, List, length, sum, take, IsTrue, IsSome, IfSome};
ghost use Rattle.mss_model.specs.BlockAtAge.{BlockView, IsParts, IsPatients, IsStays, IsBlock};

use crate::growing::Numbers;
use std::marker::Model;

/// The parts of a chance: a chance is a whole number of millionths, where nothing else is said.
pub const PARTS: u32 = 1_000_000;

/// The parts of a finer chance.
pub const FINE_PARTS: u32 = 1_000_000_000;

/// The most patients of one block.
pub const MOST_PATIENTS: usize = 16;

/// The most ages of one specialty, in days.
pub const MOST_AGES: usize = 60;

/// One block of a specialty: the chances of its counts of patients, and the chances of discharge at each age, in the
/// same parts.
#[derive(Debug, Drop)]
pub struct Block {
    parts: u32,
    patients: Numbers,
    stays: Numbers,
}

impl Model for Block {
    ghost Value = { BlockView };

    ghost view = { λ b. record { parts = b.parts; patients = b.patients; stays = b.stays } };

    ghost invariant = { λ b. IsParts b.parts × (IsPatients b.parts b.patients × IsStays b.parts b.stays) };
}

impl Block {
    /// The block with these chances, in so many parts: `patients` has that of 0, 1, 2 and so on patients, up to 16, and
    /// `stays` that of discharge at the ages 0, 1, 2 and so on days, up to 59. There is one where the parts are 1,000,000
    /// or 1,000,000,000 and the chances are as docs/MODEL.md says.
    pub fn new(parts: u32, patients: Numbers, stays: Numbers) -> Option<Block>
        ensures some { IsSome result ↔ (IsParts parts × (IsPatients parts patients × IsStays parts stays)) }
        ensures value { IfSome result (λ b. b ≡ record { parts = parts; patients = patients; stays = stays }) }
    {
        if is_parts(parts)
            && is_patients(parts, patients.as_slice())
            && is_stays(parts, stays.as_slice())
        {
            Some(Block {
                parts,
                patients,
                stays,
            })
        } else {
            None
        }
    }

    /// The parts of its chances.
    pub fn parts(&self) -> u32
        ensures value { result ≡ self.now.parts }
        ensures good { IsBlock self.now }
    {
        self.parts
    }

    /// The chances of 0, 1, 2 and so on patients, in the block's parts.
    pub fn patients(&self) -> &[u32]
        ensures value { result.now ≡ self.now.patients }
        ensures good { IsBlock self.now }
    {
        self.patients.as_slice()
    }

    /// The chances of discharge at the ages 0, 1, 2 and so on days, in the block's parts.
    pub fn stays(&self) -> &[u32]
        ensures value { result.now ≡ self.now.stays }
        ensures good { IsBlock self.now }
    {
        self.stays.as_slice()
    }
}

/// Whether chances may be in so many parts.
pub fn is_parts(parts: u32) -> bool
    ensures { IsTrue result ↔ IsParts parts }
{
    parts == PARTS || parts == FINE_PARTS
}

/// Whether these are the chances of 0, 1, 2 and so on patients.
fn is_patients(parts: u32, patients: &[u32]) -> bool
    ensures { IsTrue result ↔ IsPatients parts patients.now }
{
    if patients.is_empty() || patients.len() > MOST_PATIENTS + 1 {
        return false;
    }
    let mut total: u64 = 0;
    for chance in patients {
        total += u64::from(*chance);
    }
    total == u64::from(parts)
}

/// Whether these are the chances of discharge at the ages 0, 1, 2 and so on.
fn is_stays(parts: u32, stays: &[u32]) -> bool
    ensures { IsTrue result ↔ IsStays parts stays.now }
{
    match stays {
        [earlier @ .., last] => {
            stays.len() <= MOST_AGES
                && *last == parts
                && earlier.iter().all(|chance| *chance < parts)
        }
        [] => false,
    }
}
