//! The cases of a script, each with an office and a keeper of its own.
use super::lines::tell_line;
use crate::fault::Fault;
use crate::office::office_of;
use crate::rows::keeper_of;
use sg_keeper::Keeper;
use sg_office::Office;
use sg_plan::Items;
use std::alloc::Global;
use std::io::Write;

/// A case: its name, which is its first line, the line of the calls that fail, and its other lines.
#[derive(Clone, Copy)]
struct Case<'a> {
    name: &'a str,
    calls: &'a str,
    lines: &'a str,
}

/// Adds the numbers behind the first word of a line.
fn add_numbers(line: &str, numbers: &mut Items<u32>) -> Result<(), Fault> {
    for word in line.split(' ').skip(1) {
        let Ok(number) = word.parse::<u32>() else {
            return Err(Fault::Input);
        };
        numbers.push(number)?;
    }
    Ok(())
}

/// The numbers behind the first word of a line.
fn numbers_of(alloc: Global, line: &str) -> Result<Items<u32>, Fault> {
    let mut numbers = Items::new(alloc);
    add_numbers(line, &mut numbers)?;
    Ok(numbers)
}

/// Writes what comes of each line.
fn tell_lines<K: Keeper, W: Write>(
    alloc: Global,
    office: &mut Office,
    keeper: &mut K,
    lines: &str,
    out: &mut W,
) -> Result<(), Fault> {
    for line in lines.lines() {
        tell_line(alloc, office, keeper, line, out)?;
    }
    Ok(())
}

/// The parts of a case.
fn case_of(case: &str) -> Option<Case<'_>> {
    let (name, rest) = case.split_once('\n')?;
    let (calls, lines) = rest.split_once('\n')?;
    Some(Case { name, calls, lines })
}

/// Writes what comes of the lines of a case, over a keeper of its own. The line of calls has the word `calls` and the
/// numbers of the keeper's calls that fail.
fn tell_kept<W: Write>(
    alloc: Global,
    office: &mut Office,
    case: Case<'_>,
    out: &mut W,
) -> Result<(), Fault> {
    let mut keeper = keeper_of(alloc, numbers_of(alloc, case.calls)?);
    let told = tell_lines(alloc, office, &mut keeper, case.lines, out);
    drop(keeper);
    told
}

/// Writes what comes of the lines of a case, asked of an office of its own.
fn tell_office<W: Write>(
    alloc: Global,
    setup: &str,
    case: Case<'_>,
    out: &mut W,
) -> Result<(), Fault> {
    let mut office = office_of(alloc, setup)?;
    let told = tell_kept(alloc, &mut office, case, out);
    drop(office);
    told
}

/// Writes the name of a case, and what comes of its lines.
fn tell_case<W: Write>(alloc: Global, setup: &str, text: &str, out: &mut W) -> Result<(), Fault> {
    let Some(case) = case_of(text) else {
        return Err(Fault::Input);
    };
    out.write_all(case.name.as_bytes())?;
    out.write_all(b"\n")?;
    tell_office(alloc, setup, case, out)
}

/// Writes what comes of each case of the script: the text of their setup, and behind an empty line each case.
pub(crate) fn tell<W: Write>(alloc: Global, script: &[u8], out: &mut W) -> Result<(), Fault> {
    let Ok(script) = std::str::from_utf8(script) else {
        return Err(Fault::Input);
    };
    let Some((setup, cases)) = script.split_once("\n\n") else {
        return Err(Fault::Input);
    };
    for case in cases.split("\n\n") {
        tell_case(alloc, setup, case, out)?;
    }
    Ok(())
}
