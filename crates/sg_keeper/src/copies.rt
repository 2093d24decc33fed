//! Copies of words.
ghost use Rattle.std.specs.Prelude.{◌≡◌, IfOk};

use sg_plan::{NoMemory, Word};
use std::alloc::Global;

/// A word of the same bytes.
pub(crate) fn copy_word(alloc: Global, word: &Word) -> Result<Word, NoMemory>
    ensures { IfOk result (λ copy. copy ≡ word.now) }
{
    let mut copy = Word::new(alloc);
    copy.extend(word.bytes())?;
    Ok(copy)
}

/// The same text, where there is one.
pub(crate) fn copy_text(alloc: Global, text: &Option<Word>) -> Result<Option<Word>, NoMemory>
    ensures { IfOk result (λ copy. copy ≡ text.now) }
{
    match text {
        None => Ok(None),
        Some(text) => {
            let copy = copy_word(alloc, text)?;
            Ok(Some(copy))
        }
    }
}
