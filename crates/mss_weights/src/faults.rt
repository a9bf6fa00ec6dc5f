//! Why a text is no certificate of weights.
ghost use Rattle.std.specs.Prelude.{◌≡◌};

use mss_model::NoMemory;

/// What is wrong with a line of the text.
#[derive(Clone, Copy, Debug, PartialEq, Eq)]
pub enum WeightsKind {
    TooLong,
    Version,
    Head,
    List,
    After,
}

/// The first line that is wrong, from 1, and what is wrong with it. A text that is too long has the fault at line 0.
#[derive(Clone, Copy, Debug, PartialEq, Eq)]
pub struct WeightsFault {
    pub line: u32,
    pub kind: WeightsKind,
}

/// Why no certificate was read.
#[derive(Clone, Copy, Debug, PartialEq, Eq)]
pub enum WeightsRefusal {
    Fault(WeightsFault),
    NoMemory,
}

impl From<NoMemory> for WeightsRefusal {
    ghost use Rattle.mss_weights.specs.declared.faults.WeightsRefusal.TheVariants as refused;

    ghost from_gives = { λ _ refusal. refusal ≡ refused.NoMemory };

    fn from(_: NoMemory) -> Self {
        WeightsRefusal::NoMemory
    }
}
