//! The legal cycle of cycle.csv, or the reply that refuses it.
ghost use Rattle.std.specs.Prelude.{◌≡◌, ◌<◌, length, IfOk};
ghost use Rattle.std.specs.List.{All};
ghost use Rattle.mss_model.specs.PartsOf.{parts_of};
ghost use Rattle.mss_model.specs.TableWords.{option_count, slot_count};
ghost use Rattle.mss_command.specs.Fetched.{IsWithin, fetched_of, file_limit};
ghost use Rattle.mss_command.specs.Judging.{JudgesCycle, JudgesLegal, RefusesAsCycle};

use crate::reading::Contents;
use crate::refusal::{cycle_refusal, rule_refusal};
use crate::reply::Reply;
use mss_model::{Cycle, CycleFault, Kind, NoMemory, Tables};
use mss_rules::{Legal, Rules};
use mss_tables::{CycleRefusal, read_cycle};
use std::alloc::Global;

/// What is made of the file of a cycle.
#[derive(Drop)]
pub enum JudgedCycle {
    Legal(Cycle),
    Refused(Reply),
}

/// The fault of a file of a cycle that is longer than its limit.
const TOO_LONG: CycleFault = CycleFault {
    row: 0,
    kind: Kind::TooLong,
};

/// The legal cycle that a file means under these tables, or the reply to the first fault of the file or to the least rule
/// that its cycle breaks.
#[tactic(auto, using(crate::proofs::CyclesJudged::judged_file, crate::proofs::TablesRead::cycle_refused))]
pub fn judge_cycle(
    alloc: Global,
    tables: &Tables,
    contents: &Contents,
) -> Result<JudgedCycle, NoMemory>
    requires { IsWithin file_limit contents.now }
    ensures judges { IfOk result (JudgesCycle (parts_of tables.now) (fetched_of contents.now)) }
    ensures status { IfOk result RefusesAsCycle }
{
    let bytes = match contents {
        Contents::Bytes(bytes) => bytes,
        Contents::TooLong => return Ok(JudgedCycle::Refused(cycle_refusal(alloc, &TOO_LONG)?)),
    };
    match read_cycle(alloc, tables, bytes) {
        Ok(cycle) => judge_legal(alloc, tables, cycle),
        Err(CycleRefusal::Fault(fault)) => Ok(JudgedCycle::Refused(cycle_refusal(alloc, &fault)?)),
        Err(CycleRefusal::NoMemory) => Err(NoMemory),
    }
}

/// The cycle where it is legal, or the reply to the least rule that it breaks.
fn judge_legal(alloc: Global, tables: &Tables, cycle: Cycle) -> Result<JudgedCycle, NoMemory>
    requires slots { length cycle ≡ slot_count (parts_of tables.now) }
    requires options { All (λ option. option < option_count (parts_of tables.now)) cycle }
    ensures judges { IfOk result (JudgesLegal (parts_of tables.now) cycle) }
    ensures status { IfOk result RefusesAsCycle }
{
    match Legal.dead(tables, cycle.options()) {
        Some(rule) => Ok(JudgedCycle::Refused(rule_refusal(alloc, rule)?)),
        None => Ok(JudgedCycle::Legal(cycle)),
    }
}
