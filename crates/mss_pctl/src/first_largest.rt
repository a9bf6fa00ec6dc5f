//! The largest of the numbers at some places.
ghost use Rattle.std.specs.Prelude.{◌≡◌, ℕ, ◌<◌, List, [], ◌∷◌, ◌++◌};
ghost use Rattle.mss_pctl.specs.Peaks.{Place};

/// The largest of the numbers at some places, and the ward and day of the first place that has it.
#[derive(Clone, Copy, Debug, PartialEq, Eq)]
pub struct FirstLargest {
    pub number: u32,
    /// The number of the ward, from 1; 0 before the first place.
    pub ward: u8,
    /// The day, from 1.
    pub day: u8,
}

impl FirstLargest {
    ghost use Rattle.mss_pctl.specs.FirstLargest.{IsFirstLargest};

    /// The largest of no numbers: 0.
    pub fn none() -> FirstLargest
        ensures { (value : Place → ℕ) → IsFirstLargest value [] result }
    {
        FirstLargest {
            number: 0,
            ward: 0,
            day: 0,
        }
    }

    /// The largest with one more place, at which the number is this.
    pub fn with(self, number: u32, ward: u8, day: u8) -> FirstLargest
        requires { 0 < ward }
        ensures { (value : Place → ℕ) (places : List Place) → number ≡ value (record { ward = ward; day = day })
            → IsFirstLargest value places self → IsFirstLargest value (places ++ record { ward = ward; day = day } ∷ []) result }
    {
        if self.ward == 0 || self.number < number {
            FirstLargest { number, ward, day }
        } else {
            self
        }
    }
}
