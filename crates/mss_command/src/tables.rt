//! The tables that the ten files mean, or the reply that refuses them.
ghost use Rattle.std.specs.Prelude.{◌≡◌, ◌⊎◌, ◌≤◌, Err, IfOk};
ghost use Rattle.mss_desk.specs.Desk.{IfTold, Rose};
ghost use Rattle.mss_command.specs.Gathered.{AreWithinLimit, IsOneMissing, gathered, gathered_of};
ghost use Rattle.mss_command.specs.Judging.{Judges, RefusesAsTables};

use crate::gather::{Gathering, gather};
use crate::refusal::{long_refusal, table_refusal};
use crate::reply::{Reply, Stop};
use mss_desk::Desk;
use mss_model::{NoMemory, Tables};
use mss_tables::{TableRefusal, read_tables};
use std::alloc::Global;

/// What is made of the ten files.
#[derive(Drop)]
pub(crate) enum Judged {
    Tables(Tables),
    Refused(Reply),
}

/// Reads the ten files, and gives their tables, or the reply that refuses them.
pub(crate) fn judge_tables<D: Desk>(alloc: Global, desk: &mut D) -> Result<Judged, Stop>
    ensures judges { IfTold (D.seen desk.old).told (λ c. IfOk result (Judges (gathered c.files))) }
    ensures status { IfOk result RefusesAsTables }
    ensures content { (D.seen desk.new).told ≡ (D.seen desk.old).told }
    ensures write_faults { (D.seen desk.new).write_faults ≡ (D.seen desk.old).write_faults }
    ensures later { (D.seen desk.old).read_faults ≤ (D.seen desk.new).read_faults }
    ensures cause { result ≡ Err Stop.Read → Rose (D.seen desk.old).read_faults (D.seen desk.new).read_faults ⊎ IsOneMissing (D.seen desk.old).told }
{
    let gathering = gather(alloc, desk)?;
    Ok(tables_reply(alloc, &gathering)?)
}

/// The tables of the ten files, or the reply to the file that is too long or to the first fault of all.
#[tactic(auto, using(crate::proofs::TablesRead::tables_refused, crate::proofs::TablesRead::long_refused))]
fn tables_reply(alloc: Global, gathering: &Gathering) -> Result<Judged, NoMemory>
    requires { AreWithinLimit gathering.now }
    ensures judges { IfOk result (Judges (gathered_of gathering.now)) }
    ensures status { IfOk result RefusesAsTables }
{
    let files = match gathering {
        Gathering::Files(files) => files,
        Gathering::TooLong(file) => return Ok(Judged::Refused(long_refusal(alloc, *file)?)),
    };
    match read_tables(alloc, files) {
        Ok(tables) => Ok(Judged::Tables(tables)),
        Err(TableRefusal::Fault(fault)) => Ok(Judged::Refused(table_refusal(alloc, &fault)?)),
        Err(TableRefusal::NoMemory) => Err(NoMemory),
    }
}
