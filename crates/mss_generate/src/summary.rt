//! The text that `generate` says.
ghost use Rattle.std.specs.Prelude.{◌≡◌, ◌++◌, codes, decimal, IfOk};
ghost use Rattle.mss_model.specs.PartsOf.{parts_of};
ghost use Rattle.mss_model.specs.TableWords.{option_count, slot_count};
ghost use Rattle.mss_generate.specs.Summary.{generate_text, head_text};
ghost use Rattle.mss_generate.specs.Words.{size_word};

use crate::generate::Generate;
use mss_enclose::Kernel;
use mss_gen::Size;
use mss_model::{NoMemory, Tables, Text};
use mss_report::{PlanSummary, plan_text};
use std::alloc::Global;

/// The lines `generated NUMBER SIZE` and `slots COUNT options COUNT`, and then the four lines of the plan.
#[tactic(auto, unfolding(crate::specs::Summary::generate_text))]
pub(crate) fn summary_text<K: Kernel>(
    alloc: Global,
    kernel: &K,
    command: &Generate,
    tables: &Tables,
    summary: &PlanSummary,
) -> Result<Text, NoMemory>
    ensures { IfOk result (λ text. text ≡ generate_text command.now.number command.now.size (parts_of tables.now) summary.now) }
{
    let mut text = head_text(alloc, command, tables)?;
    let lines = plan_text(alloc, kernel, tables, summary, None)?;
    text.push(lines.bytes())?;
    Ok(text)
}

/// The two lines on what was generated.
#[tactic(auto, unfolding(crate::specs::Summary::head_text))]
fn head_text(alloc: Global, command: &Generate, tables: &Tables) -> Result<Text, NoMemory>
    ensures { IfOk result (λ text. text ≡ head_text command.now.number command.now.size (parts_of tables.now)) }
{
    let number = command.number;
    let size = size_word(command.size);
    let slots = tables.slots();
    let options = u32::from(tables.specialties()) + 1;
    let lines = format!(in alloc; "generated {number} {size}\nslots {slots} options {options}\n")?;
    let mut text = Text::make(alloc);
    text.push(lines.as_bytes())?;
    Ok(text)
}

/// The word for a size.
fn size_word(size: Size) -> &'static str
    ensures { result.now ≡ size_word size }
{
    match size {
        Size::Small => "small",
        Size::Middle => "middle",
        Size::Large => "large",
    }
}
