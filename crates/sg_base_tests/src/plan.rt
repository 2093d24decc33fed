//! Plans with each fault, at the edges of each limit, and the numbers of a small plan worked out by hand.
ghost use Rattle.std.specs.Prelude.{◌≡◌, None, length};
ghost use Rattle.sg_plan.specs.Ballots.{ballots_of, entries_of};
ghost use Rattle.sg_plan.specs.Limits.{fault_of};

use crate::plan_text::plan_of;
use sg_plan::{Items, NoMemory, Plan, PlanFault, codes_of};
use std::alloc::Global;
use std::process::Abort;
use std::test::Fail;

/// Plans, each with what its check answers.
const CASES: [(&str, &str); 52] = [
    ("1|Town|5|Mayor:AB:1|All:0|0:20000", "Ok(())"),
    ("2|!~|1|Mayor:AB:2|All:0|0:1", "Ok(())"),
    (
        "1|aaaaaaaaaaaaaaaaaaaaaaaaaaaaaaaaaaaaaaaaaaaaaaaaaaaaaaaaaaaaaaaa|5|Mayor:AB:1|All:0|0:1",
        "Ok(())",
    ),
    ("0|Town|5|Mayor:AB:1|All:0|0:20000", "Err(Version)"),
    ("3||17|||", "Err(Version)"),
    ("1||5|Mayor:AB:1|All:0|0:20000", "Err(Name)"),
    (
        "1|aaaaaaaaaaaaaaaaaaaaaaaaaaaaaaaaaaaaaaaaaaaaaaaaaaaaaaaaaaaaaaaaa|0|||",
        "Err(Name)",
    ),
    ("1|My Town|5|Mayor:AB:1|All:0|0:20000", "Err(Name)"),
    ("1|Town\u{7F}|6|Mayor:AB:1|All:0|0:20000", "Err(Name)"),
    ("1|Town|0|Mayor:AB:1|All:0|0:20000", "Err(Instances)"),
    ("1|Town|17|||", "Err(Instances)"),
    ("1|Town|6|Mayor:AB:1|All:0|0:20000", "Err(TooLarge(240000))"),
    ("1|Town|16|Mayor:AB:1|All:0|0:6250", "Ok(())"),
    ("1|Town|16|Mayor:AB:1|All:0|0:6251", "Err(TooLarge(200032))"),
    (
        "1|Town|16|A:ABCDEFGHIJKLMNOP:16;B:ABCDEFGHIJKLMNOP:1|All:01|0:20000",
        "Err(TooLarge(10240000))",
    ),
    ("1|Town|5|Mayor:AB:1;Council:AB:1|All:0|0:20000", "Ok(())"),
    (
        "1|Town|1|A;B;C;D;E;F;G;H;I;J;K;L;M;N;O;P;Q;R;S;T;U;V;W;X;Y;Z;a;b;c;d;e;f|All:0|0:1",
        "Ok(())",
    ),
    (
        "1|Town|1|A;B;C;D;E;F;G;H;I;J;K;L;M;N;O;P;Q;R;S;T;U;V;W;X;Y;Z;a;b;c;d;e;f;g|All:0|0:1",
        "Err(Race(32))",
    ),
    (
        "1|Town|1|A;B;C;D;E;F;G;H;I;J;K;L;M;N;O;P;Q;R;S;T;U;V;W;X;Y;Z;a;b;c;d;e;a|All:0|0:1",
        "Err(Race(31))",
    ),
    (
        "1|Town|1|A:AB:1;B:A:1;C;D;E;F;G;H;I;J;K;L;M;N;O;P;Q;R;S;T;U;V;W;X;Y;Z;a;b;c;d;e;f;g|All:0|0:1",
        "Err(Race(1))",
    ),
    ("1|Town|1|||", "Err(Race(0))"),
    ("1|Town|1|:AB:1|All:0|0:1", "Err(Race(0))"),
    ("1|Town|1|Mayor:A:1|All:0|0:1", "Err(Race(0))"),
    ("1|Town|1|Mayor:ABCDEFGHIJKLMNOP:16|All:0|0:1", "Ok(())"),
    (
        "1|Town|1|Mayor:ABCDEFGHIJKLMNOPQ:1|All:0|0:1",
        "Err(Race(0))",
    ),
    ("1|Town|1|Mayor:AB:0|All:0|0:1", "Err(Race(0))"),
    ("1|Town|1|Mayor:AB:3|All:0|0:1", "Err(Race(0))"),
    ("1|Town|1|Mayor:A :1|All:0|0:1", "Err(Race(0))"),
    ("1|Town|1|Mayor:ABA:1|All:0|0:1", "Err(Race(0))"),
    ("1|Town|1|Mayor:AB:1;Mayor:CD:1||0:1", "Err(Race(1))"),
    (
        "1|Town|1|Mayor:AB:1;Council:AB:3;:A:0|All:0|0:1",
        "Err(Race(1))",
    ),
    (
        "1|Town|1|A;B|A;B;C;D;E;F;G;H;I;J;K;L;M;N;O;P;Q;R;S;T;U;V;W;X;Y;Z;a;b;c;d;e;f|0:1",
        "Ok(())",
    ),
    (
        "1|Town|1|A;B|A;B;C;D;E;F;G;H;I;J;K;L;M;N;O;P;Q;R;S;T;U;V;W;X;Y;Z;a;b;c;d;e;f;g|0:1",
        "Err(Style(32))",
    ),
    ("1|Town|1|A;B|All:01;Second:1|1:1", "Ok(())"),
    ("1|Town|1|A;B||", "Err(Style(0))"),
    ("1|Town|1|A;B|A ll:0|0:1", "Err(Style(0))"),
    ("1|Town|1|A;B|All:|0:1", "Err(Style(0))"),
    ("1|Town|1|A;B|All:02|0:1", "Err(Style(0))"),
    ("1|Town|1|A;B|All:10|0:1", "Err(Style(0))"),
    ("1|Town|1|A;B|All:00|0:1", "Err(Style(0))"),
    ("1|Town|1|A;B|All:0;All:1|0:0", "Err(Style(1))"),
    ("1|Town|1|A;B|All:0;:1;All:|0:1", "Err(Style(1))"),
    ("1|Town|5|Mayor:AB:1|All:0|0:19999;0:1", "Ok(())"),
    ("1|Town|5|Mayor:AB:1|All:0|", "Err(Run(0))"),
    ("1|Town|5|Mayor:AB:1|All:0|1:1", "Err(Run(0))"),
    ("1|Town|5|Mayor:AB:1|All:0|0:0", "Err(Run(0))"),
    ("1|Town|6|Mayor:AB:1|All:0|0:20001", "Err(Run(0))"),
    ("1|Town|5|Mayor:AB:1|All:0|0:20000;0:1", "Err(Run(1))"),
    ("1|Town|5|Mayor:AB:1|All:0|0:20000;0:0;1:1", "Err(Run(1))"),
    (
        "1|Town|5|Mayor:AB:1|All:0|0:4294967295;0:4294967295",
        "Err(Run(0))",
    ),
    (
        "1|Town|5|Mayor:AB:1|All:0|0:1;0:4294967295;0:4294967295",
        "Err(Run(1))",
    ),
    ("1|Town|5|Mayor:AB:1|All:0|0:1;4294967295:1", "Err(Run(1))"),
];

/// Ballots 1, 2 and 4 have both races, and ballots 3 and 5 race 1 alone. Race 0 has three candidates.
const SMALL: &str = "1|Town|5|Mayor:ABC:1;Council:AB:2|All:01;East:1|0:2;1:1;0:1;1:1";

/// What the check of the text's plan answers.
fn answer_of(alloc: Global, text: &str) -> Result<Result<(), PlanFault>, NoMemory> {
    let plan = plan_of(alloc, text)?;
    let answer = plan.check();
    drop(plan);
    Ok(answer)
}

/// The answer is printed so.
fn is_printed(alloc: Global, answer: Result<(), PlanFault>, want: &str) -> Result<bool, Fail> {
    let text = format!(in alloc; "{answer:?}")?;
    let same = text.as_str() == want;
    drop(text);
    Ok(same)
}

/// The check of the text's plan answers so.
fn is_answered(alloc: Global, text: &str, want: &str) -> Result<bool, Fail> {
    is_printed(alloc, answer_of(alloc, text)?, want)
}

/// The check of each plan answers what stands behind it.
fn expect_faults(rt: &impl Abort, alloc: Global, cases: &[(&str, &str)]) -> Result<(), Fail> {
    for (text, want) in cases {
        assert!(rt; is_answered(alloc, text, want)?, "{text}");
    }
    Ok(())
}

#[test]
fn finds_the_first_fault(rt: HostRuntime) -> Result<(), Fail> {
    expect_faults(&rt, rt.alloc(), &CASES)
}

/// Numbers of the small plan: of its ballots, and of votes and codes.
fn ballot_numbers(plan: &Plan) -> [u32; 7]
    requires checked { fault_of plan.now ≡ None }
    requires races { length plan.now.races ≡ 2 }
    requires ballots { ballots_of plan.now ≡ 5 }
{
    [
        plan.style_of(1),
        plan.style_of(3),
        plan.rows(0),
        plan.rows(1),
        plan.row_of(0, 4),
        plan.votes(1),
        codes_of(2),
    ]
}

/// Numbers of its entries.
fn entry_numbers(plan: &Plan) -> [Option<u32>; 7]
    requires checked { fault_of plan.now ≡ None }
    requires races { length plan.now.races ≡ 2 }
    requires entries { entries_of plan.now 0 ≡ 9 }
{
    [
        Some(plan.ballot_of(0, 8)),
        Some(plan.candidate_of(0, 7)),
        plan.entry(0, 4, 2),
        plan.entry(1, 5, 1),
        plan.entry(0, 3, 0),
        plan.entry(1, 6, 0),
        plan.entry(0, 1, 3),
    ]
}

/// Whether the first race has three candidates, and which ballots carry which races.
fn carried(plan: &Plan) -> [bool; 4] {
    [
        plan.candidates(0) == 3,
        plan.carries(4, 0),
        plan.carries(3, 0),
        plan.carries(6, 1),
    ]
}

/// The small plan has these numbers.
fn has_numbers(plan: &Plan) -> bool {
    if plan.check().is_err() || plan.races.len() != 2 {
        return false;
    }
    if plan.ballots() != 5 || plan.entries(0) != 9 {
        return false;
    }
    let ballots = ballot_numbers(plan) == [0, 1, 3, 5, 2, 2, 32_768];
    let entries = entry_numbers(plan) == [Some(4), Some(1), Some(8), Some(9), None, None, None];
    ballots && entries && carried(plan) == [true, true, false, false]
}

#[test]
fn numbers_a_plan(rt: HostRuntime) -> Result<(), Fail> {
    let plan = plan_of(rt.alloc(), SMALL)?;
    let same = has_numbers(&plan);
    drop(plan);
    assert!(rt; same);
    Ok(())
}

/// Adds to a list by each call that may want memory.
fn add_numbers(list: &mut Items<u32>) -> Result<(), NoMemory> {
    list.push(8)?;
    list.insert(0, 9)?;
    list.push_times(8, 3)?;
    list.reserve(4)?;
    list.extend([1, 2, 3].as_slice())
}

#[test]
fn lists_are_made(rt: HostRuntime) -> Result<(), Fail> {
    drop(Items::<u32>::with_room(rt.alloc(), 2)?);
    let mut list = Items::filled(rt.alloc(), 7u32, 2)?;
    let is_added = add_numbers(&mut list).is_ok();
    let is_copied = list.copy(rt.alloc()).is_ok();
    drop(list);
    assert!(rt; is_added);
    assert!(rt; is_copied);
    Ok(())
}
