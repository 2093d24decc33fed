//! The status to end with, behind the last write.
ghost use Rattle.std.specs.Prelude.{◌≡◌, ◌≢◌, ◌⊎◌, ◌≤◌, OnErr, OnOk};

use sg_outside::Failed;

/// The status for a write that failed.
const WRITE_FAULT: u8 = 4;

/// The status to end with, where the work ended with this one and then what was held of the output was written. Where that
/// failed, a status that says that the work was done, or the output written, is that of a failed write.
pub fn ending(status: u8, flushed: Result<(), Failed>) -> u8
    ensures flushed { OnOk flushed (result ≡ status) }
    ensures cut { OnErr flushed ((status ≤ 1) ⊎ (status ≡ 7) ⊎ (status ≡ 8) → result ≡ 4) }
    ensures other { OnErr flushed (2 ≤ status → status ≢ 7 → status ≢ 8 → result ≡ status) }
{
    match (status, flushed) {
        (0 | 1 | 7 | 8, Err(Failed)) => WRITE_FAULT,
        _ => status,
    }
}
