//! Numbers among the words of the command line.
ghost use Rattle.std.specs.Prelude.{◌≡◌};
ghost use Rattle.mss_command.specs.Numbers.{is_plain, number_of_word};

/// The number that a word writes: digits alone, without a leading zero, at most 18,446,744,073,709,551,615.
#[tactic(auto, using(crate::proofs::ReadNumbers::read_number, crate::proofs::ReadNumbers::not_plain))]
pub fn number_of(word: &str) -> Option<u64>
    ensures { result ≡ number_of_word word.now }
{
    if !is_plain(word.as_bytes()) {
        return None;
    }
    word.parse::<u64>().ok()
}

/// Whether a word begins with a digit, and with no zero before another byte.
fn is_plain(word: &[u8]) -> bool
    ensures { result ≡ is_plain word.now }
{
    match word {
        [] => false,
        [only] => only.is_ascii_digit(),
        [first, ..] => first.is_ascii_digit() && *first != b'0',
    }
}
