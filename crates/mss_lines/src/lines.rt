//! The lines of a text.
ghost use Rattle.std.specs.Prelude.{◌≡◌, ◌++◌, ◌∷◌, MatchOption};
ghost use Rattle.mss_lines.specs.Lines.{IsOneLine};

/// The first line without its line end, and what follows it.
pub fn first_line(bytes: &[u8]) -> Option<(&[u8], &[u8])>
    ensures { MatchOption result (IsOneLine bytes.now)
        (λ found. IsOneLine found.0.now × (bytes.now ≡ found.0.now ++ (10 ∷ found.1.now))) }
{
    let end = bytes.iter().position(|byte| *byte == b'\n')?;
    Some((&bytes[..end], &bytes[end + 1..]))
}
