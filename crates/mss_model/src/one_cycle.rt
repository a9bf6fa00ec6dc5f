//! A cycle: the option of each slot.
ghost use Rattle.std.specs.Prelude.{◌≡◌, ℕ, ◌<◌, List, length, replicate, slice_set, IfOk};

use crate::no_memory::NoMemory;
use std::alloc::Global;
use std::marker::Model;

/// The options of the slots, in slot order: 0 is idle, and j is specialty j.
#[derive(Debug, Drop)]
pub struct Cycle {
    options: Vec<u8>,
}

impl Model for Cycle {
    ghost Value = { List ℕ };

    ghost view = { λ c. c.options.items };
}

impl Cycle {
    /// So many idle slots.
    pub fn idle(alloc: Global, slots: u32) -> Result<Cycle, NoMemory>
        ensures { IfOk result (λ cycle. cycle ≡ replicate slots 0) }
    {
        Ok(Cycle {
            options: vec![in alloc; 0u8; slots as usize]?,
        })
    }

    /// Gives a slot its option.
    pub fn set(&mut self, slot: u32, option: u8)
        requires { slot < length self.old }
        ensures { self.new ≡ slice_set self.old slot option }
    {
        self.options[slot as usize] = option;
    }

    pub fn options(&self) -> &[u8]
        ensures { result.now ≡ self.now }
    {
        &self.options
    }
}
