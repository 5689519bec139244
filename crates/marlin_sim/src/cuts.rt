//! Bytes cut at a mark.
ghost use Rattle.std.specs.Prelude.{◌≡◌, ◌==◌, ◌∷◌, ◌++◌, false, MatchOption};
ghost use Rattle.std.specs.List.{All};

/// What is before and after the first place of a byte, or `None` if it is nowhere.
pub fn split_at_first(bytes: &[u8], mark: u8) -> Option<(&[u8], &[u8])>
    ensures { MatchOption result
        (All (λ b. (b == mark) ≡ false) bytes.now)
        (λ parts. (bytes.now ≡ parts.0.now ++ mark ∷ parts.1.now)
        × All (λ b. (b == mark) ≡ false) parts.0.now) }
{
    match bytes.iter().position(|byte| *byte == mark) {
        Some(place) => Some((&bytes[..place], &bytes[place + 1..])),
        None => None,
    }
}
