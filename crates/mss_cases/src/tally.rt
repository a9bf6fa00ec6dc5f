//! How many cases came as expected.

use std::fmt;

/// How many cases came as expected, how many differently, and how many not as they are marked.
#[derive(Clone, Copy)]
pub struct Tally {
    expected: u32,
    different: u32,
    unmarked: u32,
}

impl Tally {
    /// No case yet.
    pub fn new() -> Tally {
        Tally {
            expected: 0,
            different: 0,
            unmarked: 0,
        }
    }

    /// Counts a case, by whether it came differently and whether it is wrong on purpose.
    pub fn count(&mut self, different: bool, wrong: bool) {
        if different {
            self.different = self.different.saturating_add(1);
        } else {
            self.expected = self.expected.saturating_add(1);
        }
        if different != wrong {
            self.unmarked = self.unmarked.saturating_add(1);
        }
    }

    /// Whether exactly the cases that are wrong on purpose came differently.
    pub fn is_as_marked(&self) -> bool {
        self.unmarked == 0
    }
}

impl fmt::Display for Tally {
    fn fmt<W: fmt::Write>(&self, f: &mut fmt::Formatter<W>) -> fmt::Result {
        let expected = self.expected;
        let different = self.different;
        write!(f, "{expected} as expected, {different} different")
    }
}
