//! The confirmation codes of a version of the record.
ghost use Rattle.std.specs.Prelude.{◌≡◌};
ghost use Rattle.sg_plan.specs.Codes.{codes_of, is_code};

use crate::plan::Plan;

/// How many codes a version has: 1,000 of three decimal digits in version 1, 32,768 of three of 32 signs in
/// version 2, and none in any other. They are the numbers below it.
pub fn codes_of(version: u32) -> u32
    ensures { result ≡ codes_of version }
{
    match version {
        1 => 1_000,
        2 => 32_768,
        _ => 0,
    }
}

impl Plan {
    /// The number is a code of the plan's version.
    pub fn is_code(&self, code: u16) -> bool
        ensures { result ≡ is_code self.now code }
    {
        u32::from(code) < codes_of(self.version)
    }
}
