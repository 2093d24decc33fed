//! What is tried of a record that is read. One function owns the record, since a proof of its end is long.
ghost use Rattle.std.specs.Prelude.{◌≡◌, true};
ghost use Rattle.sg_record.specs.Formed.{is_formed};

use crate::facts::has_codes;
use crate::fates::{has_all_fates, has_many_bits};
use crate::writing::{is_written, leaves_fronts};
use sg_plan::{Items, NoMemory};
use sg_record::{Record, read_record};
use std::alloc::Global;
use std::test::Fail;

/// What is tried of a record.
#[derive(Clone, Copy)]
pub(crate) enum Trial {
    /// That it is read, and has its form.
    Read,
    /// That it has each fate, and is written again.
    Fates,
    /// That it has many bits, and is written again.
    Bits,
    /// That a front of it is left where the put of one of so many lines fails.
    Fronts(u32),
    /// That it has its form with its own version and its own totals alone.
    Form,
    /// That its codes are those of the record of three ballots.
    Codes,
}

/// The record has its form in its own version alone, and with its own totals alone.
fn tells_form(alloc: Global, posted: &mut Record) -> Result<bool, NoMemory> {
    posted.plan.version = 1;
    let is_other = posted.is_formed(alloc)?;
    posted.plan.version = 2;
    let is_same = posted.is_formed(alloc)?;
    posted.totals.push(Items::new(alloc))?;
    Ok(is_same && !is_other && !posted.is_formed(alloc)?)
}

/// This holds of a record that has its form.
fn is_so(alloc: Global, posted: &Record, text: &[u8], trial: Trial) -> Result<bool, Fail>
    requires { is_formed posted.now ≡ true }
{
    match trial {
        Trial::Fates => Ok(has_all_fates(posted) && is_written(alloc, posted, text)?),
        Trial::Bits => Ok(has_many_bits(posted) && is_written(alloc, posted, text)?),
        Trial::Fronts(lines) => leaves_fronts(alloc, posted, text, lines),
        Trial::Codes => Ok(has_codes(alloc, posted)?),
        Trial::Read => Ok(true),
        Trial::Form => Ok(true),
    }
}

/// This holds of a record.
fn is_true(alloc: Global, posted: &mut Record, text: &[u8], trial: Trial) -> Result<bool, Fail> {
    if !posted.is_formed(alloc)? || !is_so(alloc, posted, text, trial)? {
        return Ok(false);
    }
    match trial {
        Trial::Form => Ok(tells_form(alloc, posted)?),
        _ => Ok(true),
    }
}

/// The text is read as a record of which this holds.
pub(crate) fn holds(alloc: Global, text: &[u8], trial: Trial) -> Result<bool, Fail> {
    match read_record(alloc, text)? {
        Some(mut posted) => is_true(alloc, &mut posted, text, trial),
        None => Ok(false),
    }
}
