//! Words as texts of the database, and texts as words.
ghost use Rattle.std.specs.Prelude.{◌≡◌, IfOk};
ghost use Rattle.sg_store.specs.Told.{text_at};

use sg_plan::Word;
use sqlite::{Error, ErrorCode, Row};
use sqlite_value::value::ValueRef;
use std::alloc::Global;
use std::str;

/// Memory was wanted and not found.
pub(crate) const NO_MEMORY: Error = Error::SqliteFailure(ErrorCode::OutOfMemory);

/// The text of a word. Bytes that are not UTF-8 are refused.
pub(crate) fn text_of(word: &Word) -> Result<&str, Error>
    ensures { IfOk result (λ text. text.now ≡ word.now) }
{
    match str::from_utf8(word.bytes()) {
        Ok(text) => Ok(text),
        Err(_) => Err(Error::Utf8Error(0)),
    }
}

/// The text in a column, counted from 0. Another value, and bytes that are not UTF-8, are refused.
pub(crate) fn word_of(alloc: Global, row: &Row, column: usize) -> Result<Word, Error>
    ensures { IfOk result (λ word. word ≡ text_at row.now column) }
{
    let ValueRef::Text(bytes) = row.get_ref(column)? else {
        return Err(Error::InvalidQuery);
    };
    if str::from_utf8(bytes).is_err() {
        return Err(Error::Utf8Error(column));
    }
    let mut word = Word::new(alloc);
    match word.extend(bytes) {
        Ok(()) => Ok(word),
        Err(_) => Err(NO_MEMORY),
    }
}
