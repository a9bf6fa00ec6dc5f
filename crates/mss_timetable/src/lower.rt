//! A lower number of all legal cycles.
ghost use Rattle.std.specs.Prelude.{◌≡◌, IfOk};
ghost use Rattle.mss_model.specs.PartsOf.{parts_of};
ghost use Rattle.mss_command.specs.Lower.{EachPeaksAt};
ghost use Rattle.mss_timetable.specs.Lower.{IsShownBy};

use mss_enclose::Kernel;
use mss_model::{NoMemory, Tables, Text};
use mss_weights::{find_weights, write_weights};
use std::alloc::Global;

/// A lower number of all legal cycles, in patients, and the text that shows it to `check`: no bytes where it is 0.
#[derive(Drop)]
pub(crate) struct Lower {
    pub(crate) number: u32,
    pub(crate) text: Text,
}

/// The lower number that weights show; 0 where none are found.
pub(crate) fn find_lower<K: Kernel>(
    alloc: Global,
    kernel: &K,
    tables: &Tables,
) -> Result<Lower, NoMemory>
    ensures each { IfOk result (λ lower. EachPeaksAt (parts_of tables.now) lower.number) }
    ensures shown { IfOk result (λ lower. IsShownBy (parts_of tables.now) lower.number lower.text) }
{
    match find_weights(alloc, kernel, tables)? {
        Some(weights) => Ok(Lower {
            number: weights.number,
            text: write_weights(alloc, &weights)?,
        }),
        None => Ok(Lower {
            number: 0,
            text: Text::make(alloc),
        }),
    }
}
