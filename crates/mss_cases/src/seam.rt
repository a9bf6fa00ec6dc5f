//! The calls that the cases are about.

use mss_desk::MemoryDesk;
use mss_enclose::{Kernel, Plain};
use mss_timetable::Silent;
use std::alloc::Global;
use std::cell::Cell;

/// A program, by its top call.
#[derive(Clone, Copy)]
pub enum Program {
    Mss,
    MssImprove,
}

/// How a command ended: the number of its status, and how often it called the kernel.
#[derive(Clone, Copy)]
pub struct End {
    pub status: u8,
    pub convolutions: u32,
}

// The plain kernel, and how often it was called.
#[derive(Drop)]
struct Counting {
    calls: Cell<u32>,
}

impl Kernel for Counting {
    fn convolve(&self, a: &[u64], b: &[u64], out: &mut [u64]) {
        self.calls.set(self.calls.get().saturating_add(1));
        Plain.convolve(a, b, out);
    }
}

/// Runs the command of these words over a desk.
pub fn end_of(alloc: Global, program: Program, words: &[String], desk: &mut MemoryDesk) -> End {
    let kernel = Counting {
        calls: Cell::new(0),
    };
    let status = match program {
        Program::Mss => mss_app::run(alloc, words, desk, &kernel),
        Program::MssImprove => mss_timetable::run(alloc, words, desk, &kernel, &Silent),
    };
    End {
        status: status.number(),
        convolutions: kernel.calls.get(),
    }
}
