//! The lines of a case: asks, and looks at what the office and its keeper have.
use crate::fault::Fault;
use sg_keeper::{Keeper, Rows};
use sg_office::Office;
use sg_plan::Word;
use sg_talk::{answer_to, version_of};
use std::alloc::Global;
use std::io::Write;
use std::mem;

/// The text of the office's reply to an ask.
fn reply_to<K: Keeper>(
    alloc: Global,
    office: &mut Office,
    keeper: &mut K,
    ask: &[u8],
) -> Result<Word, Fault> {
    let version = version_of(office);
    let answer = answer_to(alloc, office, keeper, ask)?;
    let text = answer.text(alloc, version);
    drop(answer);
    Ok(text?)
}

/// Writes the reply to an ask.
fn tell_ask<K: Keeper, W: Write>(
    alloc: Global,
    office: &mut Office,
    keeper: &mut K,
    ask: &str,
    out: &mut W,
) -> Result<(), Fault> {
    let text = reply_to(alloc, office, keeper, ask.as_bytes())?;
    out.write_all(text.bytes())?;
    out.write_all(b"\n")?;
    Ok(())
}

/// The last reply to asks, and how many replies at their end are like it.
#[derive(Drop)]
struct Last {
    reply: Word,
    alike: u32,
}

/// Asks once, with the ask's number between its two parts.
fn ask_at<K: Keeper>(
    alloc: Global,
    office: &mut Office,
    keeper: &mut K,
    parts: (&str, &str),
    number: u32,
    last: &mut Last,
) -> Result<(), Fault> {
    let (front, behind) = parts;
    let ask = format!(in alloc; "{front}{number}{behind}")?;
    let reply = reply_to(alloc, office, keeper, ask.as_bytes())?;
    if reply.bytes() != last.reply.bytes() {
        last.alike = 0;
    }
    last.alike = last.alike.saturating_add(1);
    drop(mem::replace(&mut last.reply, reply));
    Ok(())
}

/// Asks under the numbers from 0 on, so many of them.
fn ask_all<K: Keeper>(
    alloc: Global,
    office: &mut Office,
    keeper: &mut K,
    parts: (&str, &str),
    count: u32,
    last: &mut Last,
) -> Result<(), Fault> {
    for number in 0..count {
        ask_at(alloc, office, keeper, parts, number, last)?;
    }
    Ok(())
}

/// What stands before each number in asks, and behind it.
fn parts_of(line: &str) -> Result<(u32, (&str, &str)), Fault> {
    let Some((count, ask)) = line.split_once(' ') else {
        return Err(Fault::Input);
    };
    let Ok(count) = count.parse::<u32>() else {
        return Err(Fault::Input);
    };
    match ask.split_once('#') {
        Some(parts) => Ok((count, parts)),
        None => Err(Fault::Input),
    }
}

/// Writes the last reply to so many asks, behind the number of the replies at their end that are like it.
fn tell_asks<K: Keeper, W: Write>(
    alloc: Global,
    office: &mut Office,
    keeper: &mut K,
    line: &str,
    out: &mut W,
) -> Result<(), Fault> {
    let (count, parts) = parts_of(line)?;
    let mut last = Last {
        reply: Word::new(alloc),
        alike: 0,
    };
    ask_all(alloc, office, keeper, parts, count, &mut last)?;
    write!(out, "{} ", last.alike)?;
    out.write_all(last.reply.bytes())?;
    out.write_all(b"\n")?;
    Ok(())
}

/// Writes how many rows there are in each table but the setup's.
fn tell_counts<W: Write>(rows: &Rows, out: &mut W) -> Result<(), Fault> {
    writeln!(
        out,
        "rows: {} ballot, {} stage, {} claim, {} voided, {} done",
        rows.ballots.len(),
        rows.stages.len(),
        rows.claims.len(),
        rows.voids.len(),
        rows.dones.len()
    )?;
    Ok(())
}

/// Writes how many rows are kept in each table but the setup's.
fn tell_rows<K: Keeper, W: Write>(alloc: Global, keeper: &mut K, out: &mut W) -> Result<(), Fault> {
    let rows = keeper.load(alloc)?;
    let told = tell_counts(&rows, out);
    drop(rows);
    told
}

/// Writes how many ballots and claims the office's story tells.
fn tell_story<W: Write>(alloc: Global, office: &Office, out: &mut W) -> Result<(), Fault> {
    let story = office.story(alloc)?;
    let (fates, claims) = (story.fates.len(), story.claims.len());
    drop(story);
    writeln!(out, "story: {fates} ballots, {claims} claims")?;
    Ok(())
}

/// Makes the office's posting.
fn tell_posting<W: Write>(alloc: Global, office: &Office, out: &mut W) -> Result<(), Fault> {
    drop(office.posting(alloc)?);
    out.write_all(b"posting: made\n")?;
    Ok(())
}

/// Writes of how many ballots the office has tables.
fn tell_tables<W: Write>(office: &Office, out: &mut W) -> Result<(), Fault> {
    let ballots = office.tables().plan().ballots();
    writeln!(out, "tables: {ballots} ballots")?;
    Ok(())
}

/// What a line may look at.
#[derive(Clone, Copy, Debug)]
enum Seen {
    /// The rows that are kept.
    Rows,
    /// The office's story.
    Story,
    /// Its posting.
    Posting,
    /// Its tables.
    Tables,
}

/// What a line looks at, where it is one of the words for that.
fn seen_by(line: &str) -> Option<Seen> {
    match line {
        "rows" => Some(Seen::Rows),
        "story" => Some(Seen::Story),
        "posting" => Some(Seen::Posting),
        "tables" => Some(Seen::Tables),
        _ => None,
    }
}

/// Writes what is seen.
fn tell_seen<K: Keeper, W: Write>(
    alloc: Global,
    office: &Office,
    keeper: &mut K,
    seen: Seen,
    out: &mut W,
) -> Result<(), Fault> {
    match seen {
        Seen::Rows => tell_rows(alloc, keeper, out),
        Seen::Story => tell_story(alloc, office, out),
        Seen::Posting => tell_posting(alloc, office, out),
        Seen::Tables => tell_tables(office, out),
    }
}

/// Writes what comes of a line: one of the words `rows`, `story`, `posting` and `tables`, an ask, or a number before an
/// ask in which `#` stands for the ask's own number.
pub(super) fn tell_line<K: Keeper, W: Write>(
    alloc: Global,
    office: &mut Office,
    keeper: &mut K,
    line: &str,
    out: &mut W,
) -> Result<(), Fault> {
    if let Some(seen) = seen_by(line) {
        return tell_seen(alloc, office, keeper, seen, out);
    }
    if line.starts_with('{') {
        return tell_ask(alloc, office, keeper, line, out);
    }
    tell_asks(alloc, office, keeper, line, out)
}
