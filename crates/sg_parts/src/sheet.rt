//! The codes that a line of the printer's sheet has.
ghost use Rattle.std.specs.List.{list_any};
ghost use Rattle.std.specs.Prelude.{◌≡◌, ◌<◌, ◌==◌, [], IfOk, OnOk, length, replicate, true};
ghost use Rattle.sg_check.specs.Kinds.{has_repeat};
ghost use Rattle.sg_parts.specs.inside.Filling.{TakesCodes, TakesLine, is_race_due, with_list};

use sg_plan::{Items, NoMemory, Plan};
use sg_sheet::{Due, is_ballot_line, read_codes};
use std::alloc::Global;

/// The code is one of these.
fn stands_in(codes: &[u16], code: u16) -> bool
    ensures { result ≡ list_any (λ other. other == code) codes.now }
{
    codes.iter().any(|other| *other == code)
}

/// Two of the codes are the same.
fn has_repeat(codes: &[u16]) -> bool
    ensures { result ≡ has_repeat codes.now }
{
    for at in 0..codes.len() {
        if stands_in(&codes[at + 1..], codes[at]) {
            return true;
        }
    }
    false
}

/// Puts the codes behind those of the race.
fn push_codes(
    alloc: Global,
    lists: &mut Items<Items<Items<u16>>>,
    race: usize,
    list: Items<u16>,
) -> Result<(), NoMemory>
    requires { race < length lists.old }
    ensures { OnOk result (lists.new ≡ with_list lists.old race list) }
{
    let mut rows = lists.replace(race, Items::new(alloc));
    rows.push(list)?;
    lists.replace(race, rows);
    Ok(())
}

/// Reads the line of the codes of a race, and answers whether it is one.
fn take_codes(
    alloc: Global,
    plan: &Plan,
    lists: &mut Items<Items<Items<u16>>>,
    race: u32,
    line: &[u8],
) -> Result<bool, NoMemory>
    requires { race < length lists.old }
    ensures { IfOk result (λ taken. TakesCodes plan.now race line.now lists.old lists.new taken) }
{
    match read_codes(alloc, plan.version, race, plan.candidates(race), line)? {
        None => Ok(false),
        Some(list) => {
            if has_repeat(list.as_slice()) {
                return Ok(false);
            }
            push_codes(alloc, lists, race as usize, list)?;
            Ok(true)
        }
    }
}

/// Reads a line that is due, and answers whether it is this one.
pub(crate) fn take_line(
    alloc: Global,
    plan: &Plan,
    lists: &mut Items<Items<Items<u16>>>,
    due: &Due,
    line: &[u8],
) -> Result<bool, NoMemory>
    requires { is_race_due (length lists.old) due.now ≡ true }
    ensures { IfOk result (λ taken. TakesLine plan.now due.now line.now lists.old lists.new taken) }
{
    match *due {
        Due::Ballot { ballot, style } => Ok(is_ballot_line(line, ballot, style)),
        Due::Codes { race, .. } => take_codes(alloc, plan, lists, race, line),
    }
}

/// A list for each race, with no codes yet.
pub(crate) fn blank_lists(alloc: Global, plan: &Plan) -> Result<Items<Items<Items<u16>>>, NoMemory>
    ensures { IfOk result (λ lists. lists ≡ replicate (length plan.now.races) []) }
{
    let mut lists = Items::with_room(alloc, plan.races.len())?;
    for _race in 0..plan.races.len() {
        lists.push(Items::new(alloc))?;
    }
    Ok(lists)
}
