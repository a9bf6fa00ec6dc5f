//! A certificate of weights from its text.
ghost use Rattle.std.specs.Prelude.{◌≡◌, ◌≢◌, ℕ, [], ◌∷◌, ◌++◌, List, length, IfOk, IfErr, MatchOption, MatchResult};
ghost use Rattle.mss_lines.specs.Fields.{fields, AreShort};
ghost use Rattle.mss_lines.specs.Lines.{IsOneLine};
ghost use Rattle.mss_weights.specs.declared.faults.WeightsRefusal.TheVariants as refused;
ghost use Rattle.mss_weights.specs.declared.weights.Weights.{Weights};
ghost use Rattle.mss_weights.specs.ListLines.{IsLists, RefusesList, RefusesLists};
ghost use Rattle.mss_weights.specs.WeightsFaults.{IsList, RefusesText};
ghost use Rattle.mss_weights.specs.WeightsText.{IsShort, weights_text};

use crate::faults::{WeightsFault, WeightsKind, WeightsRefusal};
use crate::labelled::three_labelled;
use crate::weights::Weights;
use mss_lines::{after, field, first_line};
use mss_model::{NoMemory, Numbers};
use std::alloc::Global;

/// The lists of prices of a certificate.
#[derive(Drop)]
pub(crate) struct Lists {
    pub(crate) places: Numbers,
    pub(crate) blocks: Numbers,
    pub(crate) slots: Numbers,
    pub(crate) kinds: Numbers,
}

/// The certificate whose text this is, or the first fault of the text. docs/FORMATS.md has the format.
pub fn read_weights(alloc: Global, bytes: &[u8]) -> Result<Weights, WeightsRefusal>
    ensures found { IfOk result (λ w. IsShort w × (bytes.now ≡ weights_text w)) }
    ensures only { (w : Weights) → IsShort w → bytes.now ≡ weights_text w
        → MatchResult result (λ found. found ≡ w) (λ refusal. refusal ≡ refused.NoMemory) }
    ensures fault { IfErr result (RefusesText bytes.now) }
{
    read_lines(alloc, bytes)
}

fn read_lines(alloc: Global, bytes: &[u8]) -> Result<Weights, WeightsRefusal>
    ensures found { IfOk result (λ w. IsShort w × (bytes.now ≡ weights_text w)) }
    ensures fault { IfErr result (RefusesText bytes.now) }
{
    let Some(rest) = after(bytes, b"mss weights 1\n") else {
        return Err(fault(1, WeightsKind::Version));
    };
    let Some((line, rest)) = first_line(rest) else {
        return Err(fault(2, WeightsKind::Head));
    };
    let Some((number, power, reach)) = three_labelled(line, b"number", b"power", b"reach") else {
        return Err(fault(2, WeightsKind::Head));
    };
    let Lists {
        places,
        blocks,
        slots,
        kinds,
    } = read_lists(alloc, rest)?;
    Ok(Weights {
        number,
        power,
        reach,
        places,
        blocks,
        slots,
        kinds,
    })
}

fn fault(line: u32, kind: WeightsKind) -> WeightsRefusal
    ensures { result ≡ refused.Fault (record { line = line; kind = kind }) }
{
    WeightsRefusal::Fault(WeightsFault { line, kind })
}

/// The lines from the third on.
fn read_lists(alloc: Global, bytes: &[u8]) -> Result<Lists, WeightsRefusal>
    ensures found { IfOk result (IsLists bytes.now) }
    ensures fault { IfErr result (RefusesLists bytes.now) }
{
    let (places, rest) = list(alloc, bytes, b"places", 3)?;
    let (blocks, rest) = list(alloc, rest, b"blocks", 4)?;
    let (slots, rest) = list(alloc, rest, b"slots", 5)?;
    let (kinds, rest) = list(alloc, rest, b"kinds", 6)?;
    if rest.is_empty() {
        Ok(Lists {
            places,
            blocks,
            slots,
            kinds,
        })
    } else {
        Err(fault(7, WeightsKind::After))
    }
}

/// The numbers of the line that begins with a word, and what follows the line.
fn list<'a>(
    alloc: Global,
    bytes: &'a [u8],
    word: &[u8],
    number: u32,
) -> Result<(Numbers, &'a [u8]), WeightsRefusal>
    requires { IsOneLine word.now }
    ensures found { IfOk result (λ found. IsList word.now bytes.now found.0 found.1.now) }
    ensures fault { IfErr result (RefusesList word.now bytes.now number) }
{
    let Some((line, rest)) = first_line(bytes) else {
        return Err(fault(number, WeightsKind::List));
    };
    let Some(spelled) = after(line, word) else {
        return Err(fault(number, WeightsKind::List));
    };
    let Some(numbers) = all_numbers(alloc, spelled)? else {
        return Err(fault(number, WeightsKind::List));
    };
    Ok((numbers, rest))
}

/// The numbers of the bytes, each after a space, however many there are.
fn all_numbers(alloc: Global, bytes: &[u8]) -> Result<Option<Numbers>, NoMemory>
    ensures { IfOk result (λ found. MatchOption found
        ((numbers : List ℕ) → AreShort numbers → bytes.now ≢ fields numbers)
        (λ numbers. AreShort numbers × (bytes.now ≡ fields numbers))) }
{
    let mut numbers = Numbers::make(alloc);
    let mut rest = bytes;
    while !rest.is_empty() {
        let Some((number, others)) = field(rest) else {
            return Ok(None);
        };
        numbers.push(number)?;
        rest = others;
    }
    Ok(Some(numbers))
}
