//! The text of a plan: the numbers that the search found, and the report of its best cycle.
ghost use Rattle.std.specs.Prelude.{◌≡◌, ◌<◌, ℕ, List, ◌++◌, length, option_copied, Option, IfSome, IfOk};
ghost use Rattle.std.specs.List.{All};
ghost use Rattle.mss_model.specs.TableWords.{slot_count, option_count};
ghost use Rattle.mss_model.specs.PartsOf.{parts_of};
ghost use Rattle.mss_report.specs.Evaluation.{Prints};
ghost use Rattle.mss_report.specs.PlanText.{ending_text, number_line, plan_summary_text, plan_text_of, PrintsPlan};

use crate::evaluation::report;
use crate::plain::push_report;
use mss_enclose::Kernel;
use mss_model::{Cycle, NoMemory, Tables, Text};
use mss_pctl::push_named;
use std::alloc::Global;

/// The numbers of a search for the cycle with the least peak, in patients.
#[derive(Clone, Copy)]
pub struct PlanSummary {
    /// The best cycle peaks at most at this number; none where the search found no legal cycle.
    pub upper: Option<u32>,
    /// Every legal cycle peaks at least at this number; none where there is no legal cycle.
    pub lower: Option<u32>,
    /// The turns that the search took.
    pub turns: u32,
    /// Whether the search ended with an open prefix, since its budget was spent.
    pub spent: bool,
}

/// The text of a plan: the lines `plan done`, `plan none` or `plan spent`, `upper NUMBER`, `lower NUMBER` (each with
/// `none` for a number that isn't there) and `turns NUMBER`, and then, where there is a best cycle, the text of its
/// evaluation. The cycle has one option of the tables for each slot.
pub fn plan_text<K: Kernel>(
    alloc: Global,
    kernel: &K,
    tables: &Tables,
    summary: &PlanSummary,
    best: Option<&Cycle>,
) -> Result<Text, NoMemory>
    requires slots { IfSome best (λ cycle. length cycle.now ≡ slot_count (parts_of tables.now)) }
    requires options { IfSome best (λ cycle. All (λ option. option < option_count (parts_of tables.now)) cycle.now) }
    ensures { IfOk result (λ text. PrintsPlan (parts_of tables.now) summary.now (option_copied best.entry) text) }
{
    match best {
        Some(cycle) => summary_and_report(alloc, kernel, tables, summary, cycle),
        None => summary_text(alloc, summary),
    }
}

/// The lines of a plan, and the report of its best cycle.
#[tactic(auto, unfolding(crate::specs::PlanText::plan_text_of))]
fn summary_and_report<K: Kernel>(
    alloc: Global,
    kernel: &K,
    tables: &Tables,
    summary: &PlanSummary,
    best: &Cycle,
) -> Result<Text, NoMemory>
    requires slots { length best.now ≡ slot_count (parts_of tables.now) }
    requires options { All (λ option. option < option_count (parts_of tables.now)) best.now }
    ensures { IfOk result (λ text. Prints (plan_text_of summary.now) (parts_of tables.now) best.now text) }
{
    let report = report(alloc, kernel, tables, best)?;
    let mut text = summary_text(alloc, summary)?;
    push_report(alloc, &mut text, &report)?;
    Ok(text)
}

/// The four lines of a plan.
#[tactic(auto, unfolding(crate::specs::PlanText::plan_summary_text))]
fn summary_text(alloc: Global, summary: &PlanSummary) -> Result<Text, NoMemory>
    ensures { IfOk result (λ text. text ≡ plan_summary_text summary.now) }
{
    let mut text = Text::make(alloc);
    text.push(ending(summary.spent, summary.upper))?;
    push_number(alloc, &mut text, b"upper ", summary.upper)?;
    push_number(alloc, &mut text, b"lower ", summary.lower)?;
    push_named(alloc, &mut text, b"turns ", summary.turns)?;
    text.push(b"\n")?;
    Ok(text)
}

/// The line on how the search ended.
fn ending(spent: bool, upper: Option<u32>) -> &'static [u8]
    ensures { result.now ≡ ending_text spent upper }
{
    match (spent, upper) {
        (true, _) => b"plan spent\n",
        (false, None) => b"plan none\n",
        (false, Some(_)) => b"plan done\n",
    }
}

/// Adds a line with a number, or with `none`.
fn push_number(
    alloc: Global,
    text: &mut Text,
    words: &[u8],
    number: Option<u32>,
) -> Result<(), NoMemory>
    ensures { IfOk result (λ _. text.new ≡ text.old ++ number_line words.now number) }
{
    match number {
        Some(number) => {
            push_named(alloc, text, words, number)?;
            text.push(b"\n")
        }
        None => {
            text.push(words)?;
            text.push(b"none\n")
        }
    }
}
