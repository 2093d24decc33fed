//! A sample run and its summary.
ghost use Rattle.std.specs.Prelude.{◌≡◌, ◌≤◌, IfOk, length, true};
ghost use Rattle.sg_outside.specs.Streams.{seen};
ghost use Rattle.sg_post.specs.Fits.{story_fits};
ghost use Rattle.sg_histories.specs.Standing.{StandsFor};
ghost use Rattle.sg_sample.specs.SampleRun.{sample_history, sample_record, sample_setup, sample_story};
ghost use Rattle.sg_sample.specs.Summary.{SampleSays, summary_of, summary_text};

use crate::asking::sample_office;
use crate::counts::{count_audited, count_cast, count_lines, count_spoiled, last_digits};
use crate::judging::audited_totals;
use crate::posting::record_text;
use crate::putting::put_lines;
use crate::telling::{add_digits, add_number, add_totals};
use sg_check::Total;
use sg_office::Office;
use sg_outside::{Failed, Outcome, Sink};
use sg_plan::{Items, NoMemory, Word};
use sg_post::{Story, Told};
use sg_words::Sample;
use std::alloc::Global;

/// The lines of a summary.
#[tactic(auto, unfolding(crate::specs::Summary::summary_of))]
fn write_summary(
    alloc: Global,
    ballots: u32,
    fates: &[Told],
    lines: u32,
    digits: &[u8],
    totals: &Items<Total>,
) -> Result<Word, NoMemory>
    requires { length fates.now ≤ 9000 }
    ensures { IfOk result (λ text. text ≡ summary_of ballots fates.now lines digits.now totals.now) }
{
    let mut out = Word::new(alloc);
    add_number(&mut out, b"ballots", ballots)?;
    add_number(&mut out, b"cast", count_cast(fates))?;
    add_number(&mut out, b"spoiled", count_spoiled(fates))?;
    add_number(&mut out, b"audited", count_audited(fates))?;
    add_number(&mut out, b"lines", lines)?;
    add_digits(&mut out, b"seal", digits)?;
    add_totals(&mut out, totals)?;
    out.extend(b"yes\n")?;
    Ok(out)
}

/// The summary of the run with these fates and this record, which is audited.
#[tactic(none)]
fn told(alloc: Global, sample: Sample, fates: &[Told], text: &[u8]) -> Result<Word, NoMemory>
    requires some { 1 ≤ sample.ballots }
    requires few { sample.ballots ≤ 9000 }
    requires fates { fates.now ≡ (sample_story sample.seed sample.ballots).fates }
    requires text { text.now ≡ sample_record sample.seed sample.ballots }
    ensures { IfOk result (λ text. text ≡ summary_text sample.seed sample.ballots) }
{
    let Ok(totals) = audited_totals(alloc, text) else {
        return Err(NoMemory);
    };
    let lines = count_lines(text);
    let digits = last_digits(text);
    write_summary(alloc, sample.ballots, fates, lines, digits, &totals)
}

/// The record of the run whose office and story these are.
#[tactic(none)]
fn posted(alloc: Global, office: &Office, story: &Story, sample: Sample) -> Result<Word, NoMemory>
    requires setup { office.now.setup ≡ sample_setup sample.seed sample.ballots }
    requires stands { StandsFor office.now (sample_history sample.seed sample.ballots) }
    requires fits { story_fits office.now.setup.plan story.now ≡ true }
    requires story { story.now ≡ sample_story sample.seed sample.ballots }
    ensures { IfOk result (λ text. text ≡ sample_record sample.seed sample.ballots) }
{
    let Ok(posting) = office.posting(alloc) else {
        return Err(NoMemory);
    };
    record_text(alloc, office.tables(), &posting, story)
}

/// The summary of the run whose office this is.
#[tactic(none)]
fn summary(alloc: Global, office: &Office, sample: Sample) -> Result<Word, NoMemory>
    requires some { 1 ≤ sample.ballots }
    requires few { sample.ballots ≤ 9000 }
    requires setup { office.now.setup ≡ sample_setup sample.seed sample.ballots }
    requires stands { StandsFor office.now (sample_history sample.seed sample.ballots) }
    ensures { IfOk result (λ text. text ≡ summary_text sample.seed sample.ballots) }
{
    let Ok(story) = office.story(alloc) else {
        return Err(NoMemory);
    };
    let Ok(record) = posted(alloc, office, &story, sample) else {
        return Err(NoMemory);
    };
    told(alloc, sample, story.fates.as_slice(), record.bytes())
}

/// Makes the whole run, and its summary.
#[tactic(none)]
fn run_sample(alloc: Global, sample: Sample) -> Result<Word, NoMemory>
    requires some { 1 ≤ sample.ballots }
    requires few { sample.ballots ≤ 9000 }
    ensures { IfOk result (λ text. text ≡ summary_text sample.seed sample.ballots) }
{
    let Ok(office) = sample_office(alloc, sample) else {
        return Err(NoMemory);
    };
    summary(alloc, &office, sample)
}

/// Makes a sample run and writes its summary: an office over a keeper of its own in memory accepts the acts of the run,
/// its record is written into memory and audited, and then each line of the summary is one put. It depends on nothing but
/// the two numbers.
///
/// `Done`: the whole summary was appended. `WriteFailed`: a front of it was, and the output has counted a fault.
/// `NoMemory`: nothing was written. All memory is taken before the first line is put.
pub fn sample<O: Sink>(alloc: Global, sample: Sample, out: &mut O) -> Outcome
    requires some { 1 ≤ sample.ballots }
    requires few { sample.ballots ≤ 9000 }
    ensures says { SampleSays sample result (seen (O.written out.old) (O.faults out.old)) (seen (O.written out.new) (O.faults out.new)) }
    ensures quiet { result ≡ Outcome.NoMemory → out.new ≡ out.old }
    ensures later { O.faults out.old ≤ O.faults out.new }
{
    let Ok(text) = run_sample(alloc, sample) else {
        return Outcome::NoMemory;
    };
    match put_lines(text.bytes(), out) {
        Ok(()) => Outcome::Done,
        Err(Failed) => Outcome::WriteFailed,
    }
}
