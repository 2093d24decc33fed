//! The lines of a case, and the bytes that a line writes with marks.
//!
//! A mark is `%` and two hexadecimal digits, for the byte of that value; or `%(COUNT)` and two hexadecimal digits, for
//! that byte so many times. Everything else stands for itself.
use crate::fault::Fault;
use std::alloc::Global;

/// What stands behind this word on the first line that begins with it; nothing, where none does.
pub(super) fn value<'a>(case: &'a str, word: &str) -> &'a str {
    for line in case.lines() {
        if let Some((first, rest)) = line.split_once(' ') {
            if first == word {
                return rest;
            }
        }
    }
    ""
}

/// The numbers of a text, with a space between two of them.
pub(super) fn numbers(alloc: Global, text: &str) -> Result<Vec<u32>, Fault> {
    let mut numbers = Vec::new(alloc);
    for word in text.split(' ') {
        if word.is_empty() {
            continue;
        }
        numbers.push(number(word)?)?;
    }
    Ok(numbers)
}

/// A number.
pub(super) fn number(word: &str) -> Result<u32, Fault> {
    match word.parse::<u32>() {
        Ok(number) => Ok(number),
        Err(_) => Err(Fault::Input),
    }
}

/// The value of a hexadecimal digit.
fn digit(sign: u8) -> Result<u8, Fault> {
    match sign {
        b'0'..=b'9' => Ok(sign - b'0'),
        b'a'..=b'f' => Ok(sign - b'a' + 10),
        _ => Err(Fault::Input),
    }
}

/// The byte of two hexadecimal digits.
fn byte_of(high: u8, low: u8) -> Result<u8, Fault> {
    let high = digit(high)?;
    let low = digit(low)?;
    Ok(high.wrapping_mul(16).wrapping_add(low))
}

/// Adds the byte of a mark so many times, and what stands behind the mark.
fn add_times(bytes: &mut Vec<u8>, count: u32, behind: &str) -> Result<(), Fault> {
    match behind.as_bytes() {
        [high, low, rest @ ..] => {
            let byte = byte_of(*high, *low)?;
            for _time in 0..count {
                bytes.push(byte)?;
            }
            bytes.extend_from_slice(rest)?;
            Ok(())
        }
        _ => Err(Fault::Input),
    }
}

/// Adds what stands behind a `%`.
fn add_mark(bytes: &mut Vec<u8>, part: &str) -> Result<(), Fault> {
    let Some(times) = part.strip_prefix('(') else {
        return add_times(bytes, 1, part);
    };
    let Some((count, behind)) = times.split_once(')') else {
        return Err(Fault::Input);
    };
    add_times(bytes, number(count)?, behind)
}

/// The bytes that a text with marks writes.
pub(super) fn bytes_of(alloc: Global, text: &str) -> Result<Vec<u8>, Fault> {
    let mut bytes = Vec::new(alloc);
    let mut parts = text.split('%');
    if let Some(front) = parts.next() {
        bytes.extend_from_slice(front.as_bytes())?;
    }
    for part in parts {
        add_mark(&mut bytes, part)?;
    }
    Ok(bytes)
}

/// Adds bytes to a text, with marks for those that are not to be seen, and for `%`.
pub(super) fn add_marked(text: &mut String, bytes: &[u8]) -> Result<(), Fault> {
    for byte in bytes {
        match *byte {
            b'%' => text.push_str("%25")?,
            b' '..=b'~' => text.push(char::from(*byte))?,
            _ => write!(text, "%{byte:02x}")?,
        }
    }
    Ok(())
}
