//! How a command ended.
ghost use Rattle.std.specs.Prelude.{◌≡◌};

/// How a command ended, with the numbers 0 to 10 in this order.
#[derive(Clone, Copy, PartialEq, Eq)]
pub enum Status {
    Done,
    /// The words are no command.
    Words,
    /// The tables, or block.csv, have a fault.
    Tables,
    /// The cycle has a fault.
    Cycle,
    /// The certificate has a fault.
    Certificate,
    /// No cycle is legal.
    NoCycle,
    /// The budget was spent, with a legal cycle in hand.
    SpentWithCycle,
    /// The budget was spent, without a legal cycle.
    SpentWithout,
    /// A file couldn't be read. Nothing was put or said.
    ReadFault,
    /// A file couldn't be put, or the text couldn't be said.
    WriteFault,
    /// Memory was wanting. Nothing was said.
    NoMemory,
}

impl Status {
    ghost use Rattle.mss_command.specs.Status.{status_number};

    /// The number of the status, which is the program's exit status.
    pub fn number(&self) -> u8
        ensures { result ≡ status_number self.now }
    {
        *self as u8
    }
}
