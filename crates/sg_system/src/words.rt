//! The words after the program's name, as the system has them.

use sg_plan::{Items, NoMemory, Word};
use std::{env, io};

/// Why the words after the program's name were not had.
#[derive(Clone, Copy)]
pub enum WordFault {
    /// A word is not UTF-8.
    NotText,
    /// Memory was wanted and not found.
    NoMemory,
}

impl From<NoMemory> for WordFault {
    ghost use Rattle.std.specs.Prelude.{◌≡◌};
    ghost use Rattle.sg_system.specs.declared.words.WordFault.TheVariants.{NoMemory};

    ghost from_gives = { λ _ e. e ≡ NoMemory };

    fn from(_: NoMemory) -> WordFault {
        WordFault::NoMemory
    }
}

impl From<io::Error> for WordFault {
    fn from(error: io::Error) -> WordFault {
        match error.kind() {
            io::ErrorKind::OutOfMemory => WordFault::NoMemory,
            _ => WordFault::NotText,
        }
    }
}

/// The words after the program's name.
pub fn words_of(rt: &HostRuntime) -> Result<Items<Word>, WordFault> {
    let mut words = Items::new(rt.alloc());
    for text in env::args(rt)?.skip(1) {
        let mut word = Word::new(rt.alloc());
        word.extend(text.as_bytes())?;
        words.push(word)?;
    }
    Ok(words)
}
