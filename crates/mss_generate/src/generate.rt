//! The command.
ghost use Rattle.std.specs.Prelude.{◌≡◌, None, IfOk, IsTrue};
ghost use Rattle.mss_tables.specs.TablesMeaning.{AreWithin, tables_fault};
ghost use Rattle.mss_command.specs.Answers.{Prepares};
ghost use Rattle.mss_command.specs.Outcome.{Outcome, outcome_of};
ghost use Rattle.mss_command.specs.Status.{ends_by};
ghost use Rattle.mss_generate.specs.Generates.{Generates, SaysPlan, generate_may_end};
ghost use Rattle.mss_generate.specs.Kept.{Kept};
ghost use Rattle.mss_generate.specs.KeptLaws.{generated_kept};

use crate::own_tables::{puts_of, tables_of};
use crate::summary::summary_text;
use mss_alike::RuleSet;
use mss_command::{Command, Reply, Status, Stop};
use mss_desk::Desk;
use mss_enclose::Kernel;
use mss_gen::{Size, tables_from};
use mss_model::{NoMemory, Text};
use mss_plan::{planned, summary_of};
use mss_tables::TableFiles;
use std::alloc::Global;

/// The command `generate NUMBER SIZE`: the tables that are drawn from a number, and the numbers of their plan.
#[derive(Clone, Copy, Debug, PartialEq, Eq)]
pub struct Generate {
    pub number: u64,
    pub size: Size,
}

impl Command for Generate {
    ghost Defines = { λ command files o. Generates command.number command.size o };

    ghost Lacks = { λ command files. ⊥ };

    ghost may_end = { λ command. generate_may_end };

    ghost Promised = { λ command status c d. Kept command.number command.size c d };

    ghost keeps = { λ command o c d defined did. generated_kept command.number command.size o c d defined did };

    fn prepare<D: Desk, K: Kernel>(
        &self,
        alloc: Global,
        _desk: &mut D,
        kernel: &K,
    ) -> Result<Reply, Stop> {
        Ok(generate_reply(alloc, kernel, self)?)
    }
}

/// The reply: the ten files, and then the summary of their plan.
fn generate_reply<K: Kernel>(
    alloc: Global,
    kernel: &K,
    command: &Generate,
) -> Result<Reply, NoMemory>
    ensures defines { IfOk result (λ reply. Generates command.now.number command.now.size (outcome_of reply)) }
    ensures status { IfOk result (λ reply. IsTrue (ends_by generate_may_end reply.status)) }
{
    let files = tables_from(alloc, command.number, command.size)?;
    let text = plan_lines(alloc, kernel, command, &files)?;
    let puts = puts_of(alloc, &files)?;
    Ok(Reply {
        status: Status::Done,
        puts,
        text,
    })
}

/// The text on a plan of the tables that the files mean.
fn plan_lines<K: Kernel>(
    alloc: Global,
    kernel: &K,
    command: &Generate,
    files: &TableFiles,
) -> Result<Text, NoMemory>
    requires accepted { tables_fault files.now ≡ None }
    requires within { AreWithin files.now }
    ensures { IfOk result (SaysPlan command.now.number command.now.size files.now) }
{
    let tables = tables_of(alloc, files)?;
    let planned = planned(alloc, kernel, &tables, RuleSet::Legal)?;
    summary_text(alloc, kernel, command, &tables, &summary_of(&planned))
}
