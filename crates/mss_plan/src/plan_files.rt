//! The files of a plan.
ghost use Rattle.std.specs.Prelude.{◌≡◌, ◌<◌, ℕ, List, length, map, option_copied, Option, Some, IfOk, IfSome};
ghost use Rattle.std.specs.List.{All};
ghost use Rattle.mss_model.specs.Legality.{IsLegal};
ghost use Rattle.mss_model.specs.PartsOf.{parts_of};
ghost use Rattle.mss_model.specs.TableWords.{option_count, slot_count};
ghost use Rattle.mss_cert.specs.CertificateText.{IsShort};
ghost use Rattle.mss_command.specs.Outcome.{put_of};
ghost use Rattle.mss_plan.specs.Plan.{IsCycleFile, PutsPlan};

use mss_cert::write;
use mss_command::Put;
use mss_model::{Cycle, NoMemory, Tables, Text};
use mss_search::Planned;
use mss_tables::cycle_text;
use std::alloc::Global;

/// The files of a plan in the order in which they are put: the cycle and the certificate.
pub(crate) fn files(alloc: Global, tables: &Tables, planned: &Planned) -> Result<Vec<Put>, NoMemory>
    requires legal { (cycle : List ℕ) → planned.now.best ≡ Some cycle → IsLegal (parts_of tables.now) cycle }
    requires short { IsShort planned.now.certificate }
    ensures { IfOk result (λ puts. PutsPlan (parts_of tables.now) planned.now (map put_of puts.items)) }
{
    let bytes = cycle_file(alloc, tables, planned.best.as_ref())?;
    let mut puts = Vec::new(alloc);
    puts.push(Put {
        name: "planned.csv",
        bytes,
    })?;
    puts.push(Put {
        name: "certificate.txt",
        bytes: write(alloc, &planned.certificate)?,
    })?;
    Ok(puts)
}

/// The text of the best cycle; no bytes where there is none.
#[tactic(auto, using(mss_command::specs::CycleLaws::is_text_of))]
fn cycle_file(alloc: Global, tables: &Tables, best: Option<&Cycle>) -> Result<Text, NoMemory>
    requires slots { IfSome best (λ cycle. length cycle.now ≡ slot_count (parts_of tables.now)) }
    requires options { IfSome best (λ cycle. All (λ option. option < option_count (parts_of tables.now)) cycle.now) }
    ensures { IfOk result (IsCycleFile (parts_of tables.now) (option_copied best.entry)) }
{
    match best {
        Some(cycle) => cycle_text(alloc, tables, cycle),
        None => Ok(Text::make(alloc)),
    }
}
