//! The words after `generate`.
ghost use Rattle.std.specs.Prelude.{◌≡◌};
ghost use Rattle.mss_generate.specs.Words.{generate_in, size_of_word};

use crate::generate::Generate;
use mss_command::number_of;
use mss_gen::Size;

/// The command with these words after `generate`: a number from 0 to 18,446,744,073,709,551,615 without leading zeros,
/// and `small`, `middle` or `large`.
pub fn generate_of(number: &str, size: &str) -> Option<Generate>
    ensures { result ≡ generate_in number.now size.now }
{
    match (number_of(number), size_of(size)) {
        (Some(number), Some(size)) => Some(Generate { number, size }),
        _ => None,
    }
}

/// The size that a word names.
fn size_of(word: &str) -> Option<Size>
    ensures { result ≡ size_of_word word.now }
{
    match word {
        "small" => Some(Size::Small),
        "middle" => Some(Size::Middle),
        "large" => Some(Size::Large),
        _ => None,
    }
}
