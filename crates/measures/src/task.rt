//! The words of a work.

/// A work, and the numbers behind its word.
#[derive(Clone, Copy, Debug)]
pub(crate) struct Task<'a> {
    /// The word of the work: an empty one, where there is none.
    pub(crate) word: &'a str,
    /// The numbers: 0, where a word is missing or no number below 2^32.
    pub(crate) numbers: [u32; 3],
}

/// The text of a word: an empty one, where there is none.
pub(crate) fn text_of(word: &Option<String>) -> &str {
    match word {
        Some(word) => word.as_str(),
        None => "",
    }
}

/// The number that a word spells, or 0.
pub(crate) fn number_of(word: Option<String>) -> u32 {
    match word {
        Some(word) => word.as_str().parse::<u32>().unwrap_or(0),
        None => 0,
    }
}
