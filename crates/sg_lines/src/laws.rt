//! Laws of the spellings. These functions do nothing: what they ensure is the law.
ghost use Rattle.sg_lines.specs.Laws.{DecimalsAreSpelled, DecimalsAreRead, DecimalsDiffer, KeysAreSpelled, KeysAreRead, DigestsAreSpelled, DigestsAreRead, HexIsSpelled, HexIsRead, BytesDiffer, CodesAreSpelled, CodesAreRead, CodesDiffer};

/// Numbers: what is read as one is its spelling.
pub fn decimals_are_spelled_law()
    ensures { DecimalsAreSpelled }
{}

/// Numbers: each is read from its spelling.
pub fn decimals_are_read_law()
    ensures { DecimalsAreRead }
{}

/// Numbers: different ones have different spellings.
pub fn decimals_differ_law()
    ensures { DecimalsDiffer }
{}

/// Keys: what is read as one is its spelling.
pub fn keys_are_spelled_law()
    ensures { KeysAreSpelled }
{}

/// Keys: each is read from its spelling.
pub fn keys_are_read_law()
    ensures { KeysAreRead }
{}

/// Digests: what is read as one is its spelling.
pub fn digests_are_spelled_law()
    ensures { DigestsAreSpelled }
{}

/// Digests: each is read from its spelling.
pub fn digests_are_read_law()
    ensures { DigestsAreRead }
{}

/// Bytes of any number: what is read as bytes is their spelling.
pub fn hex_is_spelled_law()
    ensures { HexIsSpelled }
{}

/// Bytes of any number: all are read from their spelling.
pub fn hex_is_read_law()
    ensures { HexIsRead }
{}

/// Keys, digests and other bytes: different ones have different spellings.
pub fn bytes_differ_law()
    ensures { BytesDiffer }
{}

/// Codes of each version: what is read as one is its spelling.
pub fn codes_are_spelled_law()
    ensures { CodesAreSpelled }
{}

/// Codes of each version: each is read from its spelling.
pub fn codes_are_read_law()
    ensures { CodesAreRead }
{}

/// Codes of each version: different ones have different spellings.
pub fn codes_differ_law()
    ensures { CodesDiffer }
{}
