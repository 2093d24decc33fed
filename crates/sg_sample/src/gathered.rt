//! A sink that keeps what it takes.
use sg_outside::{Failed, Sink};
use sg_plan::Word;

/// A text that grows by what is put. It fails where memory is wanted.
#[derive(Debug, Drop)]
pub(crate) struct Gathered {
    pub(crate) text: Word,
    pub(crate) faults: u64,
}

impl Sink for Gathered {
    ghost use Rattle.std.specs.Prelude.{Some};

    ghost written = { λ sink. Some sink.text };

    ghost faults = { λ sink. sink.faults };

    fn put(&mut self, bytes: &[u8]) -> Result<(), Failed> {
        match self.text.extend(bytes) {
            Ok(()) => Ok(()),
            Err(_) => {
                self.faults = self.faults.saturating_add(1);
                Err(Failed)
            }
        }
    }
}
