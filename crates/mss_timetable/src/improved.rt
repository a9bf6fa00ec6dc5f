//! The reply with an improved cycle.
ghost use Rattle.std.specs.Prelude.{◌≡◌, ◌≤◌, IfOk};
ghost use Rattle.mss_model.specs.Legality.{IsLegal};
ghost use Rattle.mss_model.specs.PartsOf.{parts_of};
ghost use Rattle.mss_command.specs.Outcome.{outcome_of};
ghost use Rattle.mss_timetable.specs.Improves.{ImprovesCycle, IsBetter, summary_of};

use crate::files::files;
use crate::lower::find_lower;
use crate::summary::{Summary, improved_text};
use mss_command::{Reply, Status};
use mss_enclose::Kernel;
use mss_local::{Effort, Improved, Progress, improve};
use mss_model::{Cycle, NoMemory, Tables};
use mss_rules::Legal;
use std::alloc::Global;

/// The reply with the best cycle that a local search finds from a legal one: its file with that of the lower number, and
/// then its numbers with its report.
pub(crate) fn improved_reply<K: Kernel, P: Progress>(
    alloc: Global,
    kernel: &K,
    tables: &Tables,
    start: &Cycle,
    effort: Effort,
    progress: &P,
) -> Result<Reply, NoMemory>
    requires { IsLegal (parts_of tables.now) start.now }
    ensures improves { IfOk result (λ reply. ImprovesCycle (parts_of tables.now) effort.tries start.now (outcome_of reply)) }
    ensures status { IfOk result (λ reply. reply.status ≡ Status.Done) }
{
    let improved = improve(alloc, kernel, tables, &Legal, start, effort, progress)?;
    let lower = find_lower(alloc, kernel, tables)?;
    let summary = summary_of(effort, &improved, lower.number);
    let text = improved_text(alloc, kernel, tables, &summary, &improved.cycle)?;
    let puts = files(alloc, tables, &improved.cycle, lower)?;
    Ok(Reply {
        status: Status::Done,
        puts,
        text,
    })
}

/// The numbers of a search, with the lower number of all legal cycles.
fn summary_of(effort: Effort, improved: &Improved, lower: u32) -> Summary
    ensures { result ≡ summary_of effort improved.now lower }
{
    Summary {
        tries: effort.tries,
        accepted: improved.accepted,
        start_low: improved.start.low,
        start_high: improved.start.high,
        upper: improved.peak.high,
        lower,
    }
}
