//! The text of a search.
ghost use Rattle.std.specs.Prelude.{◌≡◌, ◌++◌, ◌<◌, length, IfOk};
ghost use Rattle.std.specs.List.{All};
ghost use Rattle.mss_model.specs.PartsOf.{parts_of};
ghost use Rattle.mss_model.specs.TableWords.{option_count, slot_count};
ghost use Rattle.mss_report.specs.Evaluation.{Prints};
ghost use Rattle.mss_timetable.specs.Summary.{improved_text_of, lower_line, start_line, summary_text, tries_line, upper_line};

use mss_enclose::Kernel;
use mss_model::{Cycle, NoMemory, Tables, Text};
use mss_pctl::push_named;
use mss_report::evaluate_text;
use std::alloc::Global;

/// The numbers of a search, its peaks in patients.
#[derive(Clone, Copy, Debug, PartialEq, Eq)]
pub struct Summary {
    /// The tries that were made.
    pub tries: u32,
    /// How many of them changed the cycle.
    pub accepted: u32,
    /// The first cycle peaks at least at this number.
    pub start_low: u32,
    /// The first cycle peaks at most at this number.
    pub start_high: u32,
    /// The improved cycle peaks at most at this number.
    pub upper: u32,
    /// Every legal cycle peaks at least at this number.
    pub lower: u32,
}

/// The lines of a summary, and then the evaluation of the improved cycle.
#[tactic(auto, unfolding(crate::specs::Summary::improved_text_of))]
pub(crate) fn improved_text<K: Kernel>(
    alloc: Global,
    kernel: &K,
    tables: &Tables,
    summary: &Summary,
    cycle: &Cycle,
) -> Result<Text, NoMemory>
    requires slots { length cycle.now ≡ slot_count (parts_of tables.now) }
    requires options { All (λ option. option < option_count (parts_of tables.now)) cycle.now }
    ensures { IfOk result (λ text. Prints (improved_text_of summary.now) (parts_of tables.now) cycle.now text) }
{
    let mut text = summary_text(alloc, summary)?;
    let evaluation = evaluate_text(alloc, kernel, tables, cycle)?;
    text.push(evaluation.bytes())?;
    Ok(text)
}

/// The lines of a summary.
#[tactic(auto, unfolding(crate::specs::Summary::summary_text))]
fn summary_text(alloc: Global, summary: &Summary) -> Result<Text, NoMemory>
    ensures { IfOk result (λ text. text ≡ summary_text summary.now) }
{
    let mut text = Text::make(alloc);
    text.push(b"mss improve 1\n")?;
    push_tries(alloc, &mut text, summary)?;
    push_start(alloc, &mut text, summary)?;
    push_upper(alloc, &mut text, summary)?;
    push_lower(alloc, &mut text, summary)?;
    Ok(text)
}

/// Adds the line on the tries.
#[tactic(auto, unfolding(crate::specs::Summary::tries_line))]
fn push_tries(alloc: Global, text: &mut Text, summary: &Summary) -> Result<(), NoMemory>
    ensures { IfOk result (λ _. text.new ≡ text.old ++ tries_line summary.now) }
{
    push_named(alloc, text, b"tries ", summary.tries)?;
    push_named(alloc, text, b" accepted ", summary.accepted)?;
    text.push(b"\n")
}

/// Adds the line on the peak of the first cycle.
#[tactic(auto, unfolding(crate::specs::Summary::start_line))]
fn push_start(alloc: Global, text: &mut Text, summary: &Summary) -> Result<(), NoMemory>
    ensures { IfOk result (λ _. text.new ≡ text.old ++ start_line summary.now) }
{
    push_named(alloc, text, b"start peak ", summary.start_low)?;
    push_named(alloc, text, b" ", summary.start_high)?;
    text.push(b"\n")
}

/// Adds the line on the upper number.
#[tactic(auto, unfolding(crate::specs::Summary::upper_line))]
fn push_upper(alloc: Global, text: &mut Text, summary: &Summary) -> Result<(), NoMemory>
    ensures { IfOk result (λ _. text.new ≡ text.old ++ upper_line summary.now) }
{
    push_named(alloc, text, b"upper ", summary.upper)?;
    text.push(b"\n")
}

/// Adds the line on the lower number.
#[tactic(auto, unfolding(crate::specs::Summary::lower_line))]
fn push_lower(alloc: Global, text: &mut Text, summary: &Summary) -> Result<(), NoMemory>
    ensures { IfOk result (λ _. text.new ≡ text.old ++ lower_line summary.now) }
{
    push_named(alloc, text, b"lower ", summary.lower)?;
    text.push(b"\n")
}
