//! Lines of words, each followed by a number.
ghost use Rattle.std.specs.Prelude.{◌≡◌, ◌≢◌, ℕ, [], ◌∷◌, MatchOption};
ghost use Rattle.mss_lines.specs.Fields.{AreShort};
ghost use Rattle.mss_weights.specs.Labelled.{three_labelled, IsLabelled, IsWithoutLabelled};

use mss_lines::{after, field};

/// The numbers of a line of three words, each followed by a number of at most nine digits, with one space between.
pub(crate) fn three_labelled(
    line: &[u8],
    first: &[u8],
    second: &[u8],
    third: &[u8],
) -> Option<(u32, u32, u32)>
    ensures { MatchOption result
        ((a b c : ℕ) → AreShort (a ∷ b ∷ c ∷ []) → line.now ≢ three_labelled first.now a second.now b third.now c)
        (λ found. AreShort (found.0 ∷ found.1 ∷ found.2 ∷ []) × (line.now ≡ three_labelled first.now found.0 second.now found.1 third.now found.2)) }
{
    let (a, rest) = labelled(line, first)?;
    let (b, rest) = labelled(after(rest, b" ")?, second)?;
    let (c, rest) = labelled(after(rest, b" ")?, third)?;
    if rest.is_empty() {
        Some((a, b, c))
    } else {
        None
    }
}

/// The number after a word and a space at the front, and what follows it.
fn labelled<'a>(bytes: &'a [u8], word: &[u8]) -> Option<(u32, &'a [u8])>
    ensures { MatchOption result (IsWithoutLabelled word.now bytes.now) (λ found. IsLabelled word.now bytes.now found.0 found.1.now) }
{
    let (number, rest) = field(after(bytes, word)?)?;
    Some((number, rest))
}
