//! Parts of an input, and numbers in it.
ghost use Rattle.std.specs.Prelude.{◌≡◌, ◌≢◌, ◌++◌, ◌∷◌, All, IfSome};

/// The front of the bytes, and what stands behind it.
pub(crate) fn cut(bytes: &[u8], size: usize) -> Option<(&[u8], &[u8])>
    ensures { IfSome result (λ two. bytes.now ≡ two.0.now ++ two.1.now) }
{
    if size > bytes.len() {
        return None;
    }
    Some(bytes.split_at(size))
}

/// The bytes before the first such byte, and those behind it.
pub(crate) fn cut_at(bytes: &[u8], mark: u8) -> Option<(&[u8], &[u8])>
    ensures cut { IfSome result (λ two. bytes.now ≡ two.0.now ++ mark ∷ two.1.now) }
    ensures first { IfSome result (λ two. All (λ byte. byte ≢ mark) two.0.now) }
{
    let at = bytes.iter().position(|byte| *byte == mark)?;
    let (front, rest) = bytes.split_at(at);
    Some((front, &rest[1..]))
}

/// The size that digits spell.
pub(crate) fn size_of(digits: &[u8]) -> Option<usize> {
    let text = std::str::from_utf8(digits).ok()?;
    text.parse::<usize>().ok()
}
