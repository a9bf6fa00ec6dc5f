//! The rule for names of rooms, wards, specialties and equipment.
ghost use Rattle.std.specs.Prelude.{◌≡◌, ◌↔◌, IsTrue, true};
ghost use Rattle.std.specs.List.{list_all};
ghost use Rattle.std.specs.Str.{is_utf8};
ghost use Rattle.mss_model.specs.NameRule.{is_name_text, is_printed_byte};

use std::str;

/// The most bytes of a name.
pub const MOST_NAME_BYTES: usize = 60;

/// Whether these bytes may be a name: 1 to 60 bytes of UTF-8 without control characters, and not `-` alone, which means
/// an idle slot.
pub fn is_name(bytes: &[u8]) -> bool
    ensures { result ≡ is_name_text bytes.now }
{
    match bytes {
        [] | [b'-'] => false,
        _ => bytes.len() <= MOST_NAME_BYTES && is_text(bytes) && is_printed(bytes),
    }
}

/// Whether these bytes are UTF-8.
fn is_text(bytes: &[u8]) -> bool
    ensures { result ≡ is_utf8 bytes.now }
{
    str::from_utf8(bytes).is_ok()
}

/// Whether none of these bytes is a control character.
fn is_printed(bytes: &[u8]) -> bool
    ensures { result ≡ list_all is_printed_byte bytes.now }
{
    for byte in bytes {
        if *byte < 32 || *byte == 127 {
            return false;
        }
    }
    true
}
