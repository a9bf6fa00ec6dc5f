//! A report as a plain text.
ghost use Rattle.std.specs.Prelude.{◌≡◌, ◌++◌, flat_map, IfOk};
ghost use Rattle.mss_report.specs.ReportText.{sizes_text, counts_text, peak_text, day_text, ward_text, report_text};

use crate::report::{Counts, DayReport, Report, WardReport};
use mss_model::{NoMemory, Text};
use mss_pctl::{Peak, push_figures, push_named};
use std::alloc::Global;

/// The plain text of a report.
pub(crate) fn plain_text(alloc: Global, report: &Report) -> Result<Text, NoMemory>
    ensures { IfOk result (λ text. text ≡ report_text report.now) }
{
    let mut text = Text::make(alloc);
    push_report(alloc, &mut text, report)?;
    Ok(text)
}

/// Adds the plain text of a report.
#[tactic(auto, unfolding(crate::specs::ReportText::report_text))]
pub(crate) fn push_report(alloc: Global, text: &mut Text, report: &Report) -> Result<(), NoMemory>
    ensures { IfOk result (λ _. text.new ≡ text.old ++ report_text report.now) }
{
    text.push(b"mss evaluate 1\n")?;
    push_counts(alloc, text, report.counts)?;
    push_peak(alloc, text, report.level, report.peak)?;
    push_wards(alloc, text, &report.wards)?;
    Ok(())
}

#[tactic(auto, unfolding(crate::specs::ReportText::counts_text))]
fn push_counts(alloc: Global, text: &mut Text, counts: Counts) -> Result<(), NoMemory>
    ensures { IfOk result (λ _. text.new ≡ text.old ++ counts_text counts) }
{
    push_sizes(alloc, text, counts)?;
    push_named(alloc, text, b" wards ", counts.wards)?;
    push_named(alloc, text, b" blocks ", counts.blocks)?;
    text.push(b"\n")
}

#[tactic(auto, unfolding(crate::specs::ReportText::sizes_text))]
fn push_sizes(alloc: Global, text: &mut Text, counts: Counts) -> Result<(), NoMemory>
    ensures { IfOk result (λ _. text.new ≡ text.old ++ sizes_text counts) }
{
    push_named(alloc, text, b"days ", counts.days)?;
    push_named(alloc, text, b" rooms ", counts.rooms)?;
    push_named(alloc, text, b" specialties ", counts.specialties)
}

#[tactic(auto, unfolding(crate::specs::ReportText::peak_text))]
fn push_peak(alloc: Global, text: &mut Text, level: u32, peak: Peak) -> Result<(), NoMemory>
    ensures { IfOk result (λ _. text.new ≡ text.old ++ peak_text level peak) }
{
    push_named(alloc, text, b"level ", level)?;
    push_named(alloc, text, b" peak ", peak.low)?;
    push_named(alloc, text, b" ", peak.high)?;
    push_named(alloc, text, b" ward ", u32::from(peak.ward))?;
    push_named(alloc, text, b" day ", u32::from(peak.day))?;
    text.push(b"\n")
}

fn push_wards(alloc: Global, text: &mut Text, wards: &[WardReport]) -> Result<(), NoMemory>
    ensures { IfOk result (λ _. text.new ≡ text.old ++ flat_map ward_text wards.now) }
{
    for ward in wards {
        push_ward(alloc, text, ward)?;
    }
    Ok(())
}

#[tactic(auto, unfolding(crate::specs::ReportText::ward_text))]
fn push_ward(alloc: Global, text: &mut Text, ward: &WardReport) -> Result<(), NoMemory>
    ensures { IfOk result (λ _. text.new ≡ text.old ++ ward_text ward.now) }
{
    push_named(alloc, text, b"ward ", u32::from(ward.number))?;
    text.push(b" ")?;
    text.push(ward.name.as_bytes())?;
    text.push(b"\n")?;
    push_days(alloc, text, &ward.days)
}

fn push_days(alloc: Global, text: &mut Text, days: &[DayReport]) -> Result<(), NoMemory>
    ensures { IfOk result (λ _. text.new ≡ text.old ++ flat_map day_text days.now) }
{
    for day in days {
        push_day(alloc, text, day)?;
    }
    Ok(())
}

#[tactic(auto, unfolding(crate::specs::ReportText::day_text))]
fn push_day(alloc: Global, text: &mut Text, day: &DayReport) -> Result<(), NoMemory>
    ensures { IfOk result (λ _. text.new ≡ text.old ++ day_text day.now) }
{
    push_figures(alloc, text, day.number, b"census", &day.census)?;
    push_figures(alloc, text, day.number, b"admissions", &day.admissions)?;
    push_figures(alloc, text, day.number, b"discharges", &day.discharges)
}
