//! The files of a search.
ghost use Rattle.std.specs.Prelude.{◌≡◌, ◌<◌, length, map, IfOk};
ghost use Rattle.std.specs.List.{All};
ghost use Rattle.mss_model.specs.PartsOf.{parts_of};
ghost use Rattle.mss_model.specs.TableWords.{option_count, slot_count};
ghost use Rattle.mss_command.specs.Outcome.{put_of};
ghost use Rattle.mss_timetable.specs.Improves.{PutsImproved};
ghost use Rattle.mss_timetable.specs.Lower.{IsShownBy};

use crate::lower::Lower;
use mss_command::Put;
use mss_model::{Cycle, NoMemory, Tables};
use mss_tables::cycle_text;
use std::alloc::Global;

/// The files of a search in the order in which they are put: the improved cycle, and what shows the lower number.
#[tactic(auto, using(mss_command::specs::CycleLaws::is_text_of))]
pub(crate) fn files(
    alloc: Global,
    tables: &Tables,
    cycle: &Cycle,
    lower: Lower,
) -> Result<Vec<Put>, NoMemory>
    requires slots { length cycle.now ≡ slot_count (parts_of tables.now) }
    requires options { All (λ option. option < option_count (parts_of tables.now)) cycle.now }
    requires shown { IsShownBy (parts_of tables.now) lower.number lower.text }
    ensures { IfOk result (λ puts. PutsImproved (parts_of tables.now) cycle.now lower.number (map put_of puts.items)) }
{
    let bytes = cycle_text(alloc, tables, cycle)?;
    let mut puts = Vec::new(alloc);
    puts.push(Put {
        name: "improved.csv",
        bytes,
    })?;
    puts.push(Put {
        name: "weights.txt",
        bytes: lower.text,
    })?;
    Ok(puts)
}
