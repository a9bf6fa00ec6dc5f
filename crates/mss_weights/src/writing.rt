//! A certificate of weights as its text.
ghost use Rattle.std.specs.Prelude.{◌≡◌, ◌≤◌, ◌++◌, ◌∷◌, [], length, decimal, IfOk};
ghost use Rattle.mss_lines.specs.Fields.{fields};
ghost use Rattle.mss_weights.specs.WeightsText.{IsShort, head_text, price_count, version_text, weights_text};

use crate::weights::{MOST_PRICES, MOST_WEIGHTS_BYTES, Weights};
use mss_model::{NoMemory, Text};
use std::alloc::Global;

/// The text of a certificate whose numbers are at most 999,999,999. With at most 100,000 prices it is within the limit of
/// 1,048,576 bytes.
pub fn write_weights(alloc: Global, weights: &Weights) -> Result<Text, NoMemory>
    requires { IsShort weights.now }
    ensures text { IfOk result (λ text. text ≡ weights_text weights.now) }
    ensures few { IfOk result (λ text. price_count weights.now ≤ MOST_PRICES → length text ≤ MOST_WEIGHTS_BYTES) }
{
    let mut text = Text::make(alloc);
    push_head(alloc, &mut text, weights)?;
    push_list(alloc, &mut text, b"places", weights.places.as_slice())?;
    push_list(alloc, &mut text, b"blocks", weights.blocks.as_slice())?;
    push_list(alloc, &mut text, b"slots", weights.slots.as_slice())?;
    push_list(alloc, &mut text, b"kinds", weights.kinds.as_slice())?;
    Ok(text)
}

/// Adds the first two lines.
fn push_head(alloc: Global, text: &mut Text, weights: &Weights) -> Result<(), NoMemory>
    ensures { IfOk result (λ _. text.new ≡ text.old ++ (version_text ++ (head_text weights.now.number weights.now.power weights.now.reach ++ 10 ∷ []))) }
{
    let number = weights.number;
    let power = weights.power;
    let reach = weights.reach;
    let lines = format!(in alloc; "mss weights 1\nnumber {number} power {power} reach {reach}\n")?;
    text.push(lines.as_bytes())
}

/// Adds a line of a word and numbers.
fn push_list(alloc: Global, text: &mut Text, word: &[u8], numbers: &[u32]) -> Result<(), NoMemory>
    ensures { IfOk result (λ _. text.new ≡ text.old ++ (word.now ++ (fields numbers.now ++ 10 ∷ []))) }
{
    text.push(word)?;
    for number in numbers {
        push_number(alloc, text, *number)?;
    }
    text.push(b"\n")
}

/// Adds a number after a space.
fn push_number(alloc: Global, text: &mut Text, number: u32) -> Result<(), NoMemory>
    ensures { IfOk result (λ _. text.new ≡ text.old ++ (32 ∷ decimal number)) }
{
    text.push(format!(in alloc; " {number}")?.as_bytes())
}
