//! The texts on weights: their first fault, or what the checker says of them.
ghost use Rattle.std.specs.Prelude.{◌≡◌, IfOk};
ghost use Rattle.mss_timetable.specs.CheckTexts.{accepted_text, fault_text_of, kind_name, kind_number, not_shown_text};

use mss_model::{NoMemory, Text};
use mss_pctl::push_named;
use mss_weights::{WeightsFault, WeightsKind};
use std::alloc::Global;

/// The refusal of a text: `weights refused: line LINE kind NUMBER NAME` and a line feed.
#[tactic(auto, unfolding(crate::specs::CheckTexts::fault_text_of))]
pub(crate) fn fault_text(alloc: Global, fault: &WeightsFault) -> Result<Text, NoMemory>
    ensures { IfOk result (λ text. text ≡ fault_text_of fault.now) }
{
    let mut text = Text::make(alloc);
    push_named(alloc, &mut text, b"weights refused: line ", fault.line)?;
    push_named(alloc, &mut text, b" kind ", kind_number(fault.kind))?;
    text.push(b" ")?;
    text.push(kind_name(fault.kind))?;
    text.push(b"\n")?;
    Ok(text)
}

/// The refusal of weights that don't show their number.
pub(crate) fn not_shown_text(alloc: Global) -> Result<Text, NoMemory>
    ensures { IfOk result (λ text. text ≡ not_shown_text) }
{
    let mut text = Text::make(alloc);
    text.push(b"weights refused: not shown\n")?;
    Ok(text)
}

/// What is said of weights that show a number: that every legal cycle peaks at least at it.
pub(crate) fn accepted_text(alloc: Global, number: u32) -> Result<Text, NoMemory>
    ensures { IfOk result (λ text. text ≡ accepted_text number) }
{
    let mut text = Text::make(alloc);
    push_named(
        alloc,
        &mut text,
        b"weights accepted: every legal cycle peaks at least at ",
        number,
    )?;
    text.push(b"\n")?;
    Ok(text)
}

/// The number of a kind of fault, from 1.
fn kind_number(kind: WeightsKind) -> u32
    ensures { result ≡ kind_number kind }
{
    match kind {
        WeightsKind::TooLong => 1,
        WeightsKind::Version => 2,
        WeightsKind::Head => 3,
        WeightsKind::List => 4,
        WeightsKind::After => 5,
    }
}

/// The name of a kind of fault.
fn kind_name(kind: WeightsKind) -> &'static [u8]
    ensures { result.now ≡ kind_name kind }
{
    match kind {
        WeightsKind::TooLong => b"TooLong",
        WeightsKind::Version => b"Version",
        WeightsKind::Head => b"Head",
        WeightsKind::List => b"List",
        WeightsKind::After => b"After",
    }
}
