//! Whether a fate fits a ballot of a plan.
ghost use Rattle.std.specs.Prelude.{◌≡◌, ◌<◌, ◌==◌, ◌&&◌, length};
ghost use Rattle.std.specs.List.{list_all};
ghost use Rattle.sg_plan.specs.Ballots.{candidates_of, races_of_ballot};
ghost use Rattle.sg_plan.specs.Codes.{is_code};
ghost use Rattle.sg_plan.specs.Fates.{are_codes, detail_fits, fate_fits, has_mark, is_in, mark_fits, marks_differ, paper_fits};

use crate::items::Items;
use crate::plan::{Fate, Mark, Paper, Plan};

/// One of the numbers is this one.
fn is_in(numbers: &[u32], number: u32) -> bool
    ensures { result ≡ is_in numbers.now number }
{
    numbers.iter().any(|other| *other == number)
}

/// The mark is beside a candidate of one of the races.
fn mark_fits(plan: &Plan, races: &[u32], mark: &Mark) -> bool
    ensures { result ≡ mark_fits plan.now races.now mark.now }
{
    if !is_in(races, mark.race) {
        return false;
    }
    (mark.candidate as usize) < plan.candidates(mark.race)
}

/// Each mark is beside a candidate of one of the races.
fn marks_fit(plan: &Plan, races: &[u32], marks: &[Mark]) -> bool
    ensures { result ≡ list_all (mark_fits plan.now races.now) marks.now }
{
    marks.iter().all(|mark| mark_fits(plan, races, mark))
}

/// One of the marks is beside this candidate of the race.
fn has_mark(marks: &[Mark], race: u32, candidate: u32) -> bool
    ensures { result ≡ has_mark marks.now race candidate }
{
    marks
        .iter()
        .any(|mark| mark.race == race && mark.candidate == candidate)
}

/// No mark stands twice.
fn marks_differ(marks: &[Mark]) -> bool
    ensures { result ≡ marks_differ marks.now }
{
    for at in 0..marks.len() {
        if has_mark(&marks[at + 1..], marks[at].race, marks[at].candidate) {
            return false;
        }
    }
    true
}

/// Each number is a code of the plan's version.
fn are_of_version(plan: &Plan, codes: &[u16]) -> bool
    ensures { result ≡ list_all (is_code plan.now) codes.now }
{
    codes.iter().all(|code| plan.is_code(*code))
}

/// The list has a code of the version for each candidate of the race.
fn are_codes(plan: &Plan, race: u32, codes: &Items<u16>) -> bool
    ensures { result ≡ are_codes plan.now race codes.now }
{
    if codes.len() != plan.candidates(race) {
        return false;
    }
    are_of_version(plan, codes.as_slice())
}

/// The paper has such a list for each of the races.
fn paper_fits(plan: &Plan, races: &[u32], paper: &Paper) -> bool
    ensures { result ≡ paper_fits plan.now races.now paper.now }
{
    for at in 0..paper.len() {
        if at >= races.len() {
            return false;
        }
        if !are_codes(plan, races[at], paper.get(at)) {
            return false;
        }
    }
    paper.len() == races.len()
}

/// The marks and the paper of a fate fit a ballot of these races.
pub fn detail_fits(plan: &Plan, races: &[u32], fate: &Fate) -> bool
    ensures { result ≡ detail_fits plan.now races.now fate.now }
{
    match fate {
        Fate::Unused => true,
        Fate::Cast(marks) => {
            marks_fit(plan, races, marks.as_slice()) && marks_differ(marks.as_slice())
        }
        Fate::Spoiled => true,
        Fate::Audited(paper) => paper_fits(plan, races, paper),
        Fate::Voided => true,
    }
}
