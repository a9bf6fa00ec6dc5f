//! The search over the cycles that a set of rules admits.
ghost use Rattle.std.specs.Prelude.{◌≡◌, IfOk};
ghost use Rattle.mss_model.specs.PartsOf.{parts_of};
ghost use Rattle.mss_alike.specs.RuleSets.{rule_of};
ghost use Rattle.mss_plan.specs.Plan.{IsPlan, lower_of, summary_of};

use mss_alike::{Canonical, RuleSet};
use mss_cert::End;
use mss_enclose::{Kernel, Lean};
use mss_model::{NoMemory, Tables};
use mss_report::PlanSummary;
use mss_rules::Legal;
use mss_search::{Planned, plan};
use std::alloc::Global;

/// The plan of these tables: the search over the cycles that the rules admit, with the low numbers that the checker takes.
pub fn planned<K: Kernel>(
    alloc: Global,
    kernel: &K,
    tables: &Tables,
    rules: RuleSet,
) -> Result<Planned, NoMemory>
    ensures { IfOk result (IsPlan (rule_of rules) (parts_of tables.now)) }
{
    match rules {
        RuleSet::Legal => plan::<Lean, K, Legal>(alloc, tables, kernel, &Legal),
        RuleSet::Canonical => plan::<Lean, K, Canonical>(alloc, tables, kernel, &Canonical),
    }
}

/// The numbers of a plan.
pub fn summary_of(planned: &Planned) -> PlanSummary
    ensures { result ≡ summary_of planned.now }
{
    PlanSummary {
        upper: planned.upper,
        lower: lower_of(planned.certificate.end),
        turns: planned.turns,
        spent: planned.spent,
    }
}

/// The lower number of an end, where there is one.
fn lower_of(end: End) -> Option<u32>
    ensures { result ≡ lower_of end }
{
    match end {
        End::Lower { number } => Some(number),
        End::NoneLegal => None,
    }
}
