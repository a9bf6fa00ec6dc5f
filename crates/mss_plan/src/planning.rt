//! The commands `plan` and `plan alike`.
ghost use Rattle.std.specs.Prelude.{◌≡◌, None, IfOk, IsTrue};
ghost use Rattle.mss_model.specs.PartsOf.{parts_of};
ghost use Rattle.mss_alike.specs.RuleSets.{rule_of};
ghost use Rattle.mss_command.specs.Answers.{Prepares};
ghost use Rattle.mss_command.specs.Fetched.{IsWithin, fetched_of};
ghost use Rattle.mss_command.specs.Outcome.{outcome_of};
ghost use Rattle.mss_command.specs.Questions.{AskLacks, Asks, may_end_asking};
ghost use Rattle.mss_command.specs.Status.{ends_by};
ghost use Rattle.mss_plan.specs.Plan.{PlanDefines, PlanPromised, PlansTables, plan_may_answer, plan_status};
ghost use Rattle.mss_plan.specs.PlanLaws.{plan_keeps};

use crate::legal_search::{planned, summary_of};
use crate::plan_files::files;
use mss_alike::RuleSet;
use mss_command::{Command, Contents, Question, Reply, Status, Stop, ask};
use mss_desk::Desk;
use mss_enclose::Kernel;
use mss_model::{NoMemory, Tables};
use mss_report::plan_text;
use std::alloc::Global;

/// The legal cycle with the least peak that the search over a set of rules finds within the tables' budget, with its
/// report, a lower number of the peaks of all legal cycles, and the certificate of that number.
#[derive(Clone, Copy, Debug)]
pub struct Planning {
    pub rules: RuleSet,
}

impl Question for Planning {
    ghost name = { λ question. None };

    ghost limit = { λ question. 0 };

    ghost Answers = { λ question. PlanDefines (rule_of question.rules) };

    ghost may_answer = { λ question. plan_may_answer };

    fn file(&self) -> Option<&'static str> {
        None
    }

    fn most_bytes(&self) -> usize {
        0
    }

    fn answer<K: Kernel>(
        &self,
        alloc: Global,
        kernel: &K,
        tables: &Tables,
        _contents: &Contents,
    ) -> Result<Reply, NoMemory> {
        reply(alloc, kernel, tables, self.rules)
    }
}

impl Command for Planning {
    ghost Defines = { λ command. Asks (PlanDefines (rule_of command.rules)) None 0 };

    ghost Lacks = { λ command. AskLacks None 0 };

    ghost may_end = { λ command. may_end_asking plan_may_answer };

    ghost Promised = { λ command. PlanPromised (rule_of command.rules) };

    fn prepare<D: Desk, K: Kernel>(
        &self,
        alloc: Global,
        desk: &mut D,
        kernel: &K,
    ) -> Result<Reply, Stop> {
        ask(alloc, self, desk, kernel)
    }

    ghost keeps = { λ command. plan_keeps (rule_of command.rules) };
}

/// The reply with a plan: its files, and then its numbers with the report of its cycle.
fn reply<K: Kernel>(
    alloc: Global,
    kernel: &K,
    tables: &Tables,
    rules: RuleSet,
) -> Result<Reply, NoMemory>
    ensures plans { IfOk result (λ reply. PlansTables (rule_of rules) (parts_of tables.now) (outcome_of reply)) }
    ensures status { IfOk result (λ reply. IsTrue (ends_by plan_may_answer reply.status)) }
{
    let planned = planned(alloc, kernel, tables, rules)?;
    let puts = files(alloc, tables, &planned)?;
    let text = plan_text(
        alloc,
        kernel,
        tables,
        &summary_of(&planned),
        planned.best.as_ref(),
    )?;
    Ok(Reply {
        status: status_of(planned.spent, planned.upper),
        puts,
        text,
    })
}

/// How a search ends, by whether it is spent and by the upper number.
fn status_of(spent: bool, upper: Option<u32>) -> Status
    ensures value { result ≡ plan_status spent upper }
    ensures plain { IsTrue (ends_by plan_may_answer result) }
{
    match (spent, upper) {
        (false, Some(_)) => Status::Done,
        (false, None) => Status::NoCycle,
        (true, Some(_)) => Status::SpentWithCycle,
        (true, None) => Status::SpentWithout,
    }
}
