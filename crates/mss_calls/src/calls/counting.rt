use mss_enclose::{Kernel, Plain};
use std::cell::Cell;

/// The plain kernel, which counts its calls.
#[derive(Drop)]
pub struct Counting {
    calls: Cell<u32>,
}

impl Counting {
    pub fn start() -> Counting {
        Counting {
            calls: Cell::new(0),
        }
    }

    pub fn calls(&self) -> u32 {
        self.calls.get()
    }
}

impl Kernel for Counting {
    fn convolve(&self, a: &[u64], b: &[u64], out: &mut [u64]) {
        self.calls.set(self.calls.get().saturating_add(1));
        Plain.convolve(a, b, out);
    }
}
