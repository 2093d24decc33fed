//! What is written to standard error while the office runs. Nothing depends on whether it is taken.
ghost use Rattle.std.specs.Prelude.{◌≡◌, Some};

use crate::causes::{Cause, Trouble};
use crate::folder::is_shared;

/// Says that others may read or write the secrets, where they may.
pub(crate) fn warn_if_shared(rt: &HostRuntime) {
    if is_shared(rt) {
        let _written = eprintln!(rt;
            "voldkaumi: others may read or write office.db, which has the seed and all secrets: chmod 600 office.db office.db-wal"
        );
    }
}

/// Says why an act could not be kept and whether asking again can help, unless the last cause that was told is of the same kind.
pub(crate) fn tell(rt: &HostRuntime, told: &mut Option<Trouble>, cause: &Cause)
    ensures { told.new ≡ Some cause.now.trouble }
{
    let trouble = cause.trouble();
    if told.replace(trouble) == Some(trouble) {
        return;
    }
    let advice = trouble.advice();
    let _written = eprintln!(rt; "voldkaumi: an act could not be kept: {cause}. {advice}");
}
