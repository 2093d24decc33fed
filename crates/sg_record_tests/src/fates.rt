//! What stands in two records: the lists that their lines tell.
use crate::lists::{are_by_instance, are_by_race};
use sg_commit::{Digest, Key, Opening};
use sg_plan::{ClaimWord, Draw, Paper, Plan, Race, Run, Style};
use sg_record::{
    BallotBlock, BlockFate, CastLine, CodeLine, DisputeBlock, Record, RowCommit, RowOpening,
};

/// A digest and a key of zeros, and a digest of the greatest bytes.
const ZEROS: Digest = Digest([0; 32]);

const ONES: Digest = Digest([255; 32]);

const KEY: Key = Key([0; 16]);

/// The commitments and the opening of each row.
const COMMITS: RowCommit = RowCommit {
    left: ZEROS,
    right: ONES,
};

const OPENED: RowOpening = RowOpening::Left(Opening { key: KEY, value: 3 });

/// A code under a key of zeros.
const fn code(race: u32, column: u32, code: u16) -> CodeLine {
    CodeLine {
        race,
        column,
        key: KEY,
        code,
    }
}

/// The line of a mark, with such a code.
const fn mark(race: u32, column: u32, shown: u16) -> CastLine {
    CastLine::Code(code(race, column, shown))
}

/// The candidates have these letters for names.
fn are_letters(race: &Race, letters: &[u8]) -> bool {
    if race.candidates.len() != letters.len() {
        return false;
    }
    for (name, letter) in race.candidates.as_slice().iter().zip(letters) {
        if name.bytes() != [*letter].as_slice() {
            return false;
        }
    }
    true
}

/// The race has this name, these letters for candidates, and so many votes.
fn is_race(race: &Race, name: &[u8], letters: &[u8], votes: u32) -> bool {
    race.name.bytes() == name && race.votes == votes && are_letters(race, letters)
}

/// The races are these two, of which the first has these letters for candidates.
fn are_races(races: &[Race], letters: &[u8]) -> bool {
    match races {
        [mayor, board] => is_race(mayor, b"Mayor", letters, 1)
            && is_race(board, b"Board", b"AB", 2),
        _ => false,
    }
}

/// The style has this name, and these races.
fn is_style(style: &Style, name: &[u8], races: &[u32]) -> bool {
    style.name.bytes() == name && style.races.as_slice() == races
}

/// The plan has this version and so many instances, and the town's name.
fn is_headed(plan: &Plan, version: u32, instances: u32) -> bool {
    plan.version == version
        && plan.instances == instances
        && plan.name.bytes() == b"Town".as_slice()
}

/// The styles are these two, or the second one alone.
fn are_styles(styles: &[Style], is_both: bool) -> bool {
    match styles {
        [both, one] => is_both && is_style(both, b"Both", &[0, 1]) && is_style(one, b"One", &[0]),
        [one] => !is_both && is_style(one, b"One", &[0]),
        _ => false,
    }
}

/// The plan of the record with each fate.
fn is_wide(plan: &Plan) -> bool {
    let runs = [Run { style: 0, count: 2 }, Run { style: 1, count: 3 }];
    is_headed(plan, 2, 3)
        && are_races(plan.races.as_slice(), b"AB")
        && are_styles(plan.styles.as_slice(), true)
        && plan.runs.as_slice() == runs.as_slice()
}

/// The plan of the record with many bits.
fn is_long(plan: &Plan) -> bool {
    let runs = [Run { style: 0, count: 5 }];
    is_headed(plan, 1, 1)
        && are_races(plan.races.as_slice(), b"ABCDEFGHIJKLM")
        && are_styles(plan.styles.as_slice(), false)
        && plan.runs.as_slice() == runs.as_slice()
}

/// The lists by entry are so long.
fn has_entries(posted: &Record, counts: (usize, usize), instances: usize) -> bool {
    are_by_race(&posted.code_commits, (ZEROS, ZEROS), counts)
        && are_by_instance(&posted.row_commits, (COMMITS, COMMITS), counts, instances)
        && are_by_instance(&posted.flags, (true, false), counts, instances)
        && are_by_race(&posted.places, (true, false), counts)
        && are_by_instance(&posted.rows, (OPENED, OPENED), counts, instances)
        && posted.seals == [ZEROS, ONES, ZEROS]
}

/// The ballot is cast, with these lines.
fn is_cast(block: &BallotBlock, lines: &[CastLine]) -> bool {
    match &block.fate {
        BlockFate::Cast(own) => own.as_slice() == lines,
        _ => false,
    }
}

/// The paper has the codes that are posted of it.
fn is_paper(papers: &Paper) -> bool {
    match papers.as_slice() {
        [one, two] => one.as_slice() == [0, 1].as_slice()
            && two.as_slice() == [32, 32_767].as_slice(),
        _ => false,
    }
}

/// The ballot is audited.
fn is_audited(block: &BallotBlock) -> bool {
    let all = [code(0, 0, 1), code(0, 1, 0), code(1, 0, 2), code(1, 1, 3)];
    match &block.fate {
        BlockFate::Audited(papers, codes) => is_paper(papers) && codes.as_slice() == all.as_slice(),
        _ => false,
    }
}

/// The blocks are one of each fate, and a second one of a cast ballot.
fn are_fates(blocks: &[BallotBlock]) -> bool {
    let marks = [mark(0, 1, 31), mark(1, 0, 0), mark(1, 1, 1)];
    match blocks {
        [cast, audited, spoiled, voided, over] => {
            is_cast(cast, marks.as_slice())
                && is_audited(audited)
                && matches!(spoiled.fate, BlockFate::Spoiled)
                && matches!(voided.fate, BlockFate::Voided)
                && is_cast(over, &[CastLine::Over(0)])
        }
        _ => false,
    }
}

/// The blocks are of ballots 1 to 5.
fn are_first(blocks: &[BallotBlock]) -> bool {
    let mut wanted = 1u32;
    for block in blocks {
        if block.ballot != wanted {
            return false;
        }
        wanted = wanted.saturating_add(1);
    }
    wanted == 6
}

/// What is disputed: the ballot, the race, the code and the answer.
fn is_dispute(one: &DisputeBlock, said: (u32, u32, u16, ClaimWord), codes: &[CodeLine]) -> bool {
    (one.ballot, one.race, one.code, one.word) == said && one.codes.as_slice() == codes
}

/// The disputes are these two.
fn are_disputes(disputes: &[DisputeBlock]) -> bool {
    match disputes {
        [posted, absent] => {
            let one = [code(1, 0, 0), code(1, 1, 1)];
            let two = [code(0, 0, 0), code(0, 1, 4)];
            is_dispute(posted, (1, 1, 0, ClaimWord::Posted), one.as_slice())
                && is_dispute(absent, (5, 0, 31_744, ClaimWord::Absent), two.as_slice())
        }
        _ => false,
    }
}

/// The draw is of these public bytes.
fn is_public(draw: &Draw, bytes: &[u8]) -> bool {
    match draw {
        Draw::Full => false,
        Draw::Public(public) => public.bytes() == bytes,
    }
}

/// The record with each fate.
pub(crate) fn has_all_fates(posted: &Record) -> bool {
    is_wide(&posted.plan)
        && has_entries(posted, (10, 4), 3)
        && are_by_race(&posted.totals, (7, 0), (2, 2))
        && are_first(posted.ballots.as_slice())
        && are_fates(posted.ballots.as_slice())
        && are_disputes(posted.disputes.as_slice())
        && is_public(&posted.draw, &[0, 255, 16])
}

/// The totals of the record with many bits.
fn are_long_totals(posted: &Record) -> bool {
    match posted.totals.as_slice() {
        [mayor, board] => {
            mayor.as_slice() == [7, 0, 0, 0, 0, 0, 0, 0, 0, 0, 0, 0, 0].as_slice()
                && board.as_slice() == [0, 0].as_slice()
        }
        _ => false,
    }
}

/// The record with many bits.
pub(crate) fn has_many_bits(posted: &Record) -> bool {
    is_long(&posted.plan)
        && has_entries(posted, (65, 0), 1)
        && are_long_totals(posted)
        && posted.ballots.len() == 0
        && posted.disputes.len() == 0
        && matches!(posted.draw, Draw::Full)
}
