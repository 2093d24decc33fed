//! Words and the command that the rules of the command line give for them, and the line that names them.
use crate::plan_text::word_of;
use sg_lines::Parts;
use sg_plan::{Items, NoMemory, Word};
use sg_words::{Command, Sample, Service, command_of, report_usage, usage};
use std::alloc::Global;
use std::process::Abort;
use std::test::Fail;

/// Adds the words of a line, which a space divides. An empty line has none.
fn add_words(alloc: Global, words: &mut Items<Word>, line: &[u8]) -> Result<(), NoMemory> {
    if line.is_empty() {
        return Ok(());
    }
    let mut parts = Parts::new(b' ', line);
    for _ in 0..=line.len() {
        let Some(part) = parts.part() else {
            break;
        };
        words.push(word_of(alloc, part)?)?;
    }
    Ok(())
}

/// The command of a line, whose words are put into the list.
fn find(alloc: Global, words: &mut Items<Word>, line: &[u8]) -> Result<Option<Command>, NoMemory> {
    add_words(alloc, words, line)?;
    Ok(command_of(words))
}

/// The command of a line's words.
fn asked(alloc: Global, line: &[u8]) -> Result<Option<Command>, NoMemory> {
    let mut words = Items::new(alloc);
    let found = find(alloc, &mut words, line);
    drop(words);
    found
}

/// Lines of words, and the command that each asks for.
const ACCEPTED: [(&str, Command); 16] = [
    ("audit", Command::Audit),
    ("init", Command::Init),
    ("sheet", Command::Sheet),
    ("do", Command::Do),
    ("record", Command::Record),
    ("scans", Command::Scans),
    ("openings", Command::Openings),
    ("recount", Command::Recount),
    ("odds", Command::Odds),
    ("county", Command::County),
    ("serve 1 1", Command::Serve(Service { port: 1, count: 1 })),
    (
        "serve 8080 20",
        Command::Serve(Service {
            port: 8_080,
            count: 20,
        }),
    ),
    (
        "serve 65535 1000000",
        Command::Serve(Service {
            port: 65_535,
            count: 1_000_000,
        }),
    ),
    (
        "sample 0 1",
        Command::Sample(Sample {
            seed: 0,
            ballots: 1,
        }),
    ),
    (
        "sample 7 300",
        Command::Sample(Sample {
            seed: 7,
            ballots: 300,
        }),
    ),
    (
        "sample 4294967295 9000",
        Command::Sample(Sample {
            seed: 4_294_967_295,
            ballots: 9_000,
        }),
    ),
];

/// Each line asks for its command.
fn expect_commands(rt: &impl Abort, alloc: Global, cases: &[(&str, Command)]) -> Result<(), Fail> {
    for (line, command) in cases {
        assert!(rt; asked(alloc, line.as_bytes())? == Some(*command), "{line}");
    }
    Ok(())
}

#[test]
fn commands_are_found(rt: HostRuntime) -> Result<(), Fail> {
    expect_commands(&rt, rt.alloc(), &ACCEPTED)
}

/// The line that names each command.
const USAGE: &str =
    "audit | init | sheet | do | record | scans | openings | recount | odds | county | serve PORT COUNT (1 to 65535, 1 to 1000000) | sample SEED BALLOTS (0 to 4294967295, 1 to 9000)";

/// This is the text.
fn is_text(text: Result<String, NoMemory>, expected: &str) -> Result<bool, NoMemory> {
    let text = text?;
    let same = text.as_str() == expected;
    drop(text);
    Ok(same)
}

#[test]
fn each_command_is_named(rt: HostRuntime) -> Result<(), Fail> {
    let same = [
        is_text(usage(rt.alloc()), USAGE)?,
        is_text(report_usage(rt.alloc()), "audit | recount | odds | county")?,
    ];
    assert!(rt; same == [true; 2]);
    Ok(())
}

/// Lines of words that ask for no command.
const OTHERS: &str = "\n \naudit \n audit
audit now
init now
sheet 1
do do
record 1 2
scans now
openings now
opening
recount 0
recounts
odds 0
odd
county 2
count
Audit
audits
aud
voldkaumi audit
help
help audit
help serve
--help
-h
-V
--version
-
--
-- audit
audit --
audit -h
audit --help
serve
serve 8080
serve 8080 1 1
serve 0 1
serve 08 1
serve 8080 0
serve 8080 01
serve 65536 1
serve 8080 1000001
serve +1 1
serve 1 -1
serve 1 1.0
serve 1 one
serve --port 1
serve help 1
serve 4294967297 1
serve 1 4294967297
sample
sample 1
sample 7 300 1
sample 07 300
sample 7 0
sample 7 9001
sample 4294967296 1
sample -7 300
sample 7 -- 300";

/// Lines of words that are no text.
const NO_TEXTS: &[u8] =
    b"\xff\naudit\xff\n\xc0\x80 audit\nserve 1 \xed\xa0\x80\nsample 7 300\x80\naudit\0";

/// No line asks for a command.
fn expect_none(rt: &impl Abort, alloc: Global, lines: &[u8]) -> Result<(), Fail> {
    let mut parts = Parts::new(b'\n', lines);
    for _ in 0..=lines.len() {
        let Some(line) = parts.part() else {
            break;
        };
        assert!(rt; asked(alloc, line)?.is_none(), "{line:?}");
    }
    Ok(())
}

#[test]
fn other_words_are_none(rt: HostRuntime) -> Result<(), Fail> {
    expect_none(&rt, rt.alloc(), OTHERS.as_bytes())?;
    expect_none(&rt, rt.alloc(), NO_TEXTS)
}
