//! The first mark of a scan that does not stand where it should.
ghost use Rattle.std.specs.Prelude.{◌≡◌, ◌<◌, ◌≤◌, ◌^◌, None, [], length, nat_lt, not, take};
ghost use Rattle.sg_plan.specs.Ballots.{ballot_has, candidates_of};
ghost use Rattle.sg_plan.specs.Fates.{has_mark};
ghost use Rattle.sg_plan.specs.Limits.{first_bad};

use sg_plan::{BallotIndex, Items, Mark, Plan};

/// The first mark that names no race of the ballot.
pub fn first_in_no_race(index: &BallotIndex, ballot: u32, marks: &Items<Mark>) -> Option<u32>
    requires { length marks.now < 2 ^ 32 }
    ensures { result ≡ first_bad (λ earlier mark. ballot_has index.now ballot mark.race) [] marks.now }
{
    for at in 0..marks.len() {
        if !index.has(ballot, marks.get(at).race) {
            return Some(at as u32);
        }
    }
    None
}

/// The first mark that names no candidate of its race.
pub fn first_of_no_candidate(plan: &Plan, marks: &Items<Mark>) -> Option<u32>
    requires { length marks.now < 2 ^ 32 }
    ensures { result ≡ first_bad (λ earlier mark. nat_lt mark.candidate (candidates_of plan.now mark.race)) [] marks.now }
{
    for at in 0..marks.len() {
        let mark = marks.get(at);
        if mark.candidate as usize >= plan.candidates(mark.race) {
            return Some(at as u32);
        }
    }
    None
}

/// The mark stands among the first ones, so many of them.
fn stands_before(marks: &Items<Mark>, end: usize, mark: &Mark) -> bool
    requires { end ≤ length marks.now }
    ensures { result ≡ has_mark (take end marks.now) mark.now.race mark.now.candidate }
{
    let front = &marks.as_slice()[..end];
    front.iter().any(|other| other.race == mark.race && other.candidate == mark.candidate)
}

/// The first mark that stands before.
///
/// A plan has at most 512 candidates in all its races, so among marks beside them it is one of the first 513.
pub fn first_twice(marks: &Items<Mark>) -> Option<u32>
    requires { length marks.now < 2 ^ 32 }
    ensures { result ≡ first_bad (λ earlier mark. not (has_mark earlier mark.race mark.candidate)) [] marks.now }
{
    for at in 0..marks.len() {
        if stands_before(marks, at, marks.get(at)) {
            return Some(at as u32);
        }
    }
    None
}
