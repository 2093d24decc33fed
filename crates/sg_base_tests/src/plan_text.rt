//! Plans of tests, each written as one line.
//!
//! A plan is its version, name, instances, races, styles and runs, with `|` between them, and `;` between races, styles and
//! runs. A race is its name, a letter for each candidate, and the votes; a style its name and a digit for each race; a run its
//! style and count. A name alone is a race with the candidates A and B and one vote, or a style with race 0.
use sg_plan::{Items, NoMemory, Plan, Race, Run, Style, Word};
use std::alloc::Global;

/// What stands before the mark, and what behind it.
pub(crate) fn cut(text: &str, mark: char) -> (&str, &str) {
    text.split_once(mark).unwrap_or((text, ""))
}

/// The number that the text spells, or 0.
fn number_of(text: &str) -> u32 {
    text.parse::<u32>().unwrap_or(0)
}

/// A word with these bytes.
pub(crate) fn word_of(alloc: Global, bytes: &[u8]) -> Result<Word, NoMemory> {
    let mut word = Word::new(alloc);
    match word.extend(bytes) {
        Ok(()) => Ok(word),
        Err(none) => {
            drop(word);
            Err(none)
        }
    }
}

/// Adds a word for each letter.
fn add_letters(alloc: Global, words: &mut Items<Word>, letters: &[u8]) -> Result<(), NoMemory> {
    for letter in letters {
        words.push(word_of(alloc, [*letter].as_slice())?)?;
    }
    Ok(())
}

fn add_race(alloc: Global, races: &mut Items<Race>, text: &str) -> Result<(), NoMemory> {
    let (name, rest) = text.split_once(':').unwrap_or((text, "AB:1"));
    let (letters, votes) = cut(rest, ':');
    let mut race = Race {
        name: word_of(alloc, name.as_bytes())?,
        candidates: Items::new(alloc),
        votes: number_of(votes),
    };
    match add_letters(alloc, &mut race.candidates, letters.as_bytes()) {
        Ok(()) => races.push(race),
        Err(none) => {
            drop(race);
            Err(none)
        }
    }
}

/// Adds the number of each digit.
fn add_digits(races: &mut Items<u32>, digits: &[u8]) -> Result<(), NoMemory> {
    for digit in digits {
        races.push(u32::from(digit.saturating_sub(b'0')))?;
    }
    Ok(())
}

fn add_style(alloc: Global, styles: &mut Items<Style>, text: &str) -> Result<(), NoMemory> {
    let (name, digits) = text.split_once(':').unwrap_or((text, "0"));
    let mut style = Style {
        name: word_of(alloc, name.as_bytes())?,
        races: Items::new(alloc),
    };
    match add_digits(&mut style.races, digits.as_bytes()) {
        Ok(()) => styles.push(style),
        Err(none) => {
            drop(style);
            Err(none)
        }
    }
}

fn add_races(alloc: Global, races: &mut Items<Race>, text: &str) -> Result<(), NoMemory> {
    let mut rest = text;
    for _ in 0..text.len() {
        if rest.is_empty() {
            break;
        }
        let (part, others) = cut(rest, ';');
        add_race(alloc, races, part)?;
        rest = others;
    }
    Ok(())
}

fn add_styles(alloc: Global, styles: &mut Items<Style>, text: &str) -> Result<(), NoMemory> {
    let mut rest = text;
    for _ in 0..text.len() {
        if rest.is_empty() {
            break;
        }
        let (part, others) = cut(rest, ';');
        add_style(alloc, styles, part)?;
        rest = others;
    }
    Ok(())
}

fn add_runs(runs: &mut Items<Run>, text: &str) -> Result<(), NoMemory> {
    let mut rest = text;
    for _ in 0..text.len() {
        if rest.is_empty() {
            break;
        }
        let (part, others) = cut(rest, ';');
        let (style, count) = cut(part, ':');
        runs.push(Run {
            style: number_of(style),
            count: number_of(count),
        })?;
        rest = others;
    }
    Ok(())
}

/// Fills a plan that is empty.
fn fill(alloc: Global, plan: &mut Plan, text: &str) -> Result<(), NoMemory> {
    let (version, rest) = cut(text, '|');
    let (name, rest) = cut(rest, '|');
    let (instances, rest) = cut(rest, '|');
    let (races, rest) = cut(rest, '|');
    let (styles, runs) = cut(rest, '|');
    plan.version = number_of(version);
    plan.instances = number_of(instances);
    plan.name.extend(name.as_bytes())?;
    add_races(alloc, &mut plan.races, races)?;
    add_styles(alloc, &mut plan.styles, styles)?;
    add_runs(&mut plan.runs, runs)
}

/// The plan of the text.
pub(crate) fn plan_of(alloc: Global, text: &str) -> Result<Plan, NoMemory> {
    let mut plan = Plan {
        version: 0,
        name: Word::new(alloc),
        instances: 0,
        races: Items::new(alloc),
        styles: Items::new(alloc),
        runs: Items::new(alloc),
    };
    match fill(alloc, &mut plan, text) {
        Ok(()) => Ok(plan),
        Err(none) => {
            drop(plan);
            Err(none)
        }
    }
}
