//! Lists of bits.
ghost use Rattle.std.specs.Prelude.{◌↔◌, IsTrue, All};
ghost use Rattle.sg_lines.specs.Words.{IsBit, IsBits};

/// The byte is the character `0` or `1`.
fn is_bit(byte: u8) -> bool
    ensures { IsTrue result ↔ IsBit byte }
{
    matches!(byte, b'0' | b'1')
}

/// All bytes are characters `0` or `1`.
fn are_bits(word: &[u8]) -> bool
    ensures { IsTrue result ↔ All IsBit word.now }
{
    word.iter().all(|byte| is_bit(*byte))
}

/// The word is exactly `count` characters, each `0` or `1`.
pub fn is_bits(word: &[u8], count: u32) -> bool
    ensures { IsTrue result ↔ IsBits count word.now }
{
    if word.len() != count as usize {
        return false;
    }
    are_bits(word)
}
