//! The program: the real input, output and connections, the keeper over `office.db`, and `main`.
#![tactic(auto)]

use sg_app::run;
use sg_file::FileKeeper;
use sg_plan::{Items, Word};
use sg_system::{
    Descriptors, Detail, StdSink, StdSource, TcpLinks, WordFault, ending, output, say, say_why,
    stream_detail, words_of,
};
use sg_words::{Command, command_of, usage};
use std::process::ExitCode;

/// The status for words that are no command's.
const BAD_WORDS: u8 = 2;

/// The status for a keeper that failed.
const KEEPER_FAULT: u8 = 5;

/// The status for connections that failed.
const LINKS_FAULT: u8 = 6;

/// The status for want of memory.
const WANT_OF_MEMORY: u8 = 9;

/// Whether the words are a command's whose output may be held.
fn may_hold(words: &Items<Word>) -> bool {
    command_of(words).is_some_and(Command::may_hold_output)
}

/// What is told behind the cause of this status.
fn detail_of<'a>(
    rt: &HostRuntime,
    status: u8,
    input: &'a StdSource,
    links: &'a TcpLinks<'_>,
    out: &'a StdSink,
) -> Option<Detail<'a>> {
    match status {
        BAD_WORDS => Some(Detail::Words(usage(rt.alloc()))),
        LINKS_FAULT => links.cause().map(Detail::System),
        _ => stream_detail(status, input, out),
    }
}

/// Says on standard error why the program ends with this status.
fn say_cause(
    rt: &HostRuntime,
    status: u8,
    input: &StdSource,
    keeper: &FileKeeper<'_>,
    links: &TcpLinks<'_>,
    out: &StdSink,
) {
    match keeper.cause() {
        Some(found) if status == KEEPER_FAULT => say(rt, found),
        _ => say_why(rt, status, detail_of(rt, status, input, links, out)),
    }
}

fn main(rt: HostRuntime) -> ExitCode {
    let _descriptors = Descriptors::hold(&rt);
    let words = words_of(&rt);
    let is_held = words.as_ref().is_ok_and(may_hold);
    let mut input = StdSource::new(rt.stdin());
    let mut keeper = FileKeeper::new(&rt);
    let mut links = TcpLinks::new(&rt);
    let mut out = output(&rt, is_held);
    let status = match &words {
        Ok(words) => run(
            rt.alloc(),
            words,
            &mut input,
            &mut keeper,
            &mut links,
            &mut out,
        ),
        Err(WordFault::NotText) => BAD_WORDS,
        Err(WordFault::NoMemory) => WANT_OF_MEMORY,
    };
    links.close();
    let status = ending(status, out.flush());
    say_cause(&rt, status, &input, &keeper, &links, &out);
    ExitCode::from(status)
}
