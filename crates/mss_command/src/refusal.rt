//! The replies that refuse the tables, block.csv or a cycle.
ghost use Rattle.std.specs.Prelude.{◌≡◌, IfOk};
ghost use Rattle.mss_report.specs.Faults.{cycle_fault_text_of, fault_text_of, rule_text_of};
ghost use Rattle.mss_command.specs.Outcome.{outcome_of, saying};
ghost use Rattle.mss_command.specs.Refusals.{too_long};

use crate::reply::Reply;
use crate::status::Status;
use mss_model::{CycleFault, Kind, NoMemory, TableFault};
use mss_report::{cycle_fault_text, rule_text, table_fault_text};
use std::alloc::Global;

/// The reply to a fault of the tables or of block.csv.
pub fn table_refusal(alloc: Global, fault: &TableFault) -> Result<Reply, NoMemory>
    ensures outcome { IfOk result (λ reply. outcome_of reply ≡ saying Status.Tables (fault_text_of fault.now)) }
    ensures status { IfOk result (λ reply. reply.status ≡ Status.Tables) }
{
    Ok(Reply::saying(alloc, Status::Tables, table_fault_text(alloc, fault)?))
}

/// The reply to a file of the tables, or to block.csv, that is longer than its limit.
pub fn long_refusal(alloc: Global, file: u8) -> Result<Reply, NoMemory>
    ensures outcome { IfOk result (λ reply. outcome_of reply ≡ saying Status.Tables (fault_text_of (too_long file))) }
    ensures status { IfOk result (λ reply. reply.status ≡ Status.Tables) }
{
    table_refusal(
        alloc,
        &TableFault {
            file,
            row: 0,
            item: 0,
            kind: Kind::TooLong,
        },
    )
}

/// The reply to a fault of the cycle.
pub(crate) fn cycle_refusal(alloc: Global, fault: &CycleFault) -> Result<Reply, NoMemory>
    ensures outcome { IfOk result (λ reply. outcome_of reply ≡ saying Status.Cycle (cycle_fault_text_of fault.now)) }
    ensures status { IfOk result (λ reply. reply.status ≡ Status.Cycle) }
{
    Ok(Reply::saying(alloc, Status::Cycle, cycle_fault_text(alloc, fault)?))
}

/// The reply to a cycle that breaks a rule.
pub(crate) fn rule_refusal(alloc: Global, rule: u8) -> Result<Reply, NoMemory>
    ensures outcome { IfOk result (λ reply. outcome_of reply ≡ saying Status.Cycle (rule_text_of rule)) }
    ensures status { IfOk result (λ reply. reply.status ≡ Status.Cycle) }
{
    Ok(Reply::saying(alloc, Status::Cycle, rule_text(alloc, rule)?))
}
