//! Bytes of any number, read from hexadecimal digits into memory of their own.
ghost use Rattle.std.specs.Prelude.{◌≡◌, ◌*◌, IfOk, length};
ghost use Rattle.sg_lines.specs.Words.{hex_of};

use crate::bytes::read_hex;
use sg_plan::{NoMemory, Word};
use std::alloc::Global;

/// Reads bytes, however many they are: two lower-case hexadecimal digits for each, the high four bits first. Any other
/// word is `None`; the empty word is no bytes.
pub fn hex_bytes(alloc: Global, word: &[u8]) -> Result<Option<Word>, NoMemory>
    ensures { IfOk result (λ found. found ≡ hex_of word.now) }
{
    if word.len() % 2 != 0 {
        return Ok(None);
    }
    let mut room = vec![in alloc; 0; word.len() / 2]?;
    read_into(alloc, word, &mut room)
}

/// Reads the bytes into `room`, which is as long as they are, and then into a word of their own.
fn read_into(alloc: Global, word: &[u8], room: &mut [u8]) -> Result<Option<Word>, NoMemory>
    requires { length word.now ≡ 2 * length room.old }
    ensures { IfOk result (λ found. found ≡ hex_of word.now) }
{
    if !read_hex(word, room) {
        return Ok(None);
    }
    let mut bytes = Word::new(alloc);
    bytes.extend(room)?;
    Ok(Some(bytes))
}
