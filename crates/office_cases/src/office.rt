//! An office that has accepted nothing.
ghost use Rattle.std.specs.Prelude.{IfOk};
ghost use Rattle.sg_keeper.specs.SetupText.{IsSetup};

use crate::fault::Fault;
use sg_keeper::Setup;
use sg_office::Office;
use std::alloc::Global;

/// The setup of this text.
fn setup_of(alloc: Global, text: &str) -> Result<Setup, Fault>
    ensures { IfOk result IsSetup }
{
    match Setup::read(alloc, text.as_bytes())? {
        Some(setup) => Ok(setup),
        None => Err(Fault::Input),
    }
}

/// An office of the setup of this text, without its last line feed.
pub(crate) fn office_of(alloc: Global, text: &str) -> Result<Office, Fault> {
    let text = format!(in alloc; "{text}\n")?;
    let setup = setup_of(alloc, text.as_str())?;
    let office = Office::new(alloc, setup)?;
    Ok(office)
}
