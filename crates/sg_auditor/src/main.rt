//! The program for who only audits: the real input and output, and `main`. It runs `audit`, `recount`, `odds` and `county`, and
//! has no part that opens an office.
#![tactic(auto)]

use sg_reports::run_reports;
use sg_system::{
    Descriptors, Detail, StdSource, WordFault, ending, output, say_why, stream_detail, words_of,
};
use sg_words::report_usage;
use std::process::ExitCode;

/// The status for words that are no command's.
const BAD_WORDS: u8 = 2;

/// The status for want of memory.
const WANT_OF_MEMORY: u8 = 9;

fn main(rt: HostRuntime) -> ExitCode {
    let _descriptors = Descriptors::hold(&rt);
    let words = words_of(&rt);
    let mut input = StdSource::new(rt.stdin());
    let mut out = output(&rt, true);
    let status = match &words {
        Ok(words) => run_reports(rt.alloc(), words, &mut input, &mut out),
        Err(WordFault::NotText) => BAD_WORDS,
        Err(WordFault::NoMemory) => WANT_OF_MEMORY,
    };
    let status = ending(status, out.flush());
    let detail = match status {
        BAD_WORDS => Some(Detail::Words(report_usage(rt.alloc()))),
        _ => stream_detail(status, &input, &out),
    };
    say_why(&rt, status, detail);
    ExitCode::from(status)
}
