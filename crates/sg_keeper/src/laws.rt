//! Laws of an office's rows and of the texts of setups: what follows from the definitions alone. Each function does
//! nothing, and its contract is proved.
ghost use Rattle.sg_keeper.specs.Laws.{RisingIsKept, SetupsAreAscii, SetupsDiffer};

/// No rows rise by their keys, and rows that rise still do so with a change whose keys are new.
pub fn rising_law()
    ensures { RisingIsKept }
{}

/// Different setups have different texts.
pub fn setup_texts_law()
    ensures { SetupsDiffer }
{}

/// The text of each setup is ASCII.
pub fn setup_ascii_law()
    ensures { SetupsAreAscii }
{}
