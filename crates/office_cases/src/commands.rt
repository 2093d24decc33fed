//! A command of the program over memory.
//!
//! The contract of `run` is long, and whoever calls it carries all of it to its own end. So one function calls it over
//! borrowed values, and promises nothing: what it answers is printed and compared.
ghost use Rattle.std.specs.Prelude.{◌≡◌, IfOk, false, is_some};

use crate::fault::Fault;
use sg_app::run;
use sg_keeper::Keeper;
use sg_links::Calls;
use sg_outside::{Bytes, NoMemory, Page};
use sg_plan::{Items, Word};
use std::alloc::Global;

/// Adds a word.
fn add_word(alloc: Global, part: &[u8], words: &mut Items<Word>) -> Result<(), Fault> {
    let mut word = Word::new(alloc);
    word.extend(part)?;
    words.push(word)?;
    Ok(())
}

/// Adds the words of a text.
fn add_words(alloc: Global, text: &[u8], words: &mut Items<Word>) -> Result<(), Fault> {
    for part in text.split(|byte| *byte == b' ' || *byte == b'+') {
        add_word(alloc, part, words)?;
    }
    Ok(())
}

/// The words of a command, as the program is given them.
fn words_of(alloc: Global, text: &[u8]) -> Result<Items<Word>, Fault> {
    let mut words = Items::new(alloc);
    add_words(alloc, text, &mut words)?;
    Ok(words)
}

/// Links without connections.
fn no_calls(alloc: Global) -> Result<Calls, NoMemory>
    ensures { IfOk result (λ calls. is_some calls.board.current ≡ false) }
{
    Calls::new(alloc, Vec::new(alloc), 0, 0, Vec::new(alloc))
}

/// Runs the command of these words, and answers its status.
fn status_at<K: Keeper>(
    alloc: Global,
    words: &Items<Word>,
    input: &mut Bytes,
    keeper: &mut K,
    links: &mut Calls,
    page: &mut Page,
) -> u8
    requires { is_some links.old.board.current ≡ false }
{
    run(alloc, words, input, keeper, links, page)
}

/// Runs the command of a text over these connections, and answers its status. Between two of its words stands a space or
/// a plus sign.
pub(crate) fn status_over<K: Keeper>(
    alloc: Global,
    text: &[u8],
    input: &mut Bytes,
    keeper: &mut K,
    links: &mut Calls,
    page: &mut Page,
) -> Result<u8, Fault>
    requires { is_some links.old.board.current ≡ false }
{
    let words = words_of(alloc, text)?;
    let status = status_at(alloc, &words, input, keeper, links, page);
    drop(words);
    Ok(status)
}

/// The same without connections.
pub(crate) fn status_of<K: Keeper>(
    alloc: Global,
    text: &[u8],
    input: &mut Bytes,
    keeper: &mut K,
    page: &mut Page,
) -> Result<u8, Fault> {
    let mut links = no_calls(alloc)?;
    let status = status_over(alloc, text, input, keeper, &mut links, page);
    drop(links);
    status
}
