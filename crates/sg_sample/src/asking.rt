//! The office of a sample is asked, act by act.
ghost use Rattle.std.specs.Prelude.{◌≡◌, ◌+◌, ◌<◌, ◌≤◌, IfOk, OnOk};
ghost use Rattle.sg_histories.specs.Lawful.{IsAskable};
ghost use Rattle.sg_histories.specs.Standing.{StandsFor};
ghost use Rattle.sg_keeper.specs.SetupText.{IsSetup};
ghost use Rattle.sg_sample.specs.SampleRun.{sample_history, sample_setup};
ghost use Rattle.sg_sample.specs.inside.Voting.{GoesOn, IsTaken, IsVoted, stamp_of};

use crate::acts::{ballot_act, sample_draw};
use crate::election::{SECRET, sample_setup};
use crate::steady::Steady;
use sg_acts::{Act, Ask, Reply, Stamp};
use sg_keeper::{Keeper, Setup};
use sg_office::Office;
use sg_plan::{BallotIndex, NoMemory};
use sg_words::Sample;
use std::alloc::Global;

/// The stamp of the one station's act with this number.
fn stamp(number: u32) -> Stamp
    ensures { result ≡ stamp_of number }
{
    Stamp {
        station: 0,
        secret: SECRET,
        number,
    }
}

/// Asks for an act that is new and accepted. It refuses for want of memory alone.
fn ask(
    alloc: Global,
    office: &mut Office,
    keeper: &mut Steady,
    number: u32,
    act: Act,
) -> Result<(), NoMemory>
    requires act { IsAskable office.old.setup act }
    requires taken { IsTaken office.old number act }
    ensures { OnOk result (GoesOn office.old office.new number act) }
{
    let ask = Ask::Do(stamp(number), act);
    match office.answer(alloc, keeper, &ask) {
        Reply::Done(_) => Ok(()),
        Reply::Memory => Err(NoMemory),
        _ => unreachable!(),
    }
}

/// Asks for the act of the next ballot behind so many, where it has one, and answers how many acts there are then.
fn vote_one(
    alloc: Global,
    office: &mut Office,
    keeper: &mut Steady,
    index: &BallotIndex,
    number: u32,
    before: u32,
    ballots: u32,
) -> Result<u32, NoMemory>
    requires few { ballots ≤ 9000 }
    requires before { before < ballots }
    requires index { index.now ≡ office.old.setup.plan }
    requires voted { IsVoted office.old number before ballots }
    ensures setup { OnOk result (office.new.setup ≡ office.old.setup) }
    ensures voted { IfOk result (λ count. IsVoted office.new count (before + 1) ballots) }
{
    match ballot_act(alloc, office.tables(), index, before + 1)? {
        None => Ok(number),
        Some(act) => {
            ask(alloc, office, keeper, number, act)?;
            Ok(number + 1)
        }
    }
}

/// Asks for the acts of all ballots, and answers how many these are.
fn vote(
    alloc: Global,
    office: &mut Office,
    keeper: &mut Steady,
    index: &BallotIndex,
    ballots: u32,
) -> Result<u32, NoMemory>
    requires few { ballots ≤ 9000 }
    requires index { index.now ≡ office.old.setup.plan }
    requires voted { IsVoted office.old 0 0 ballots }
    ensures setup { OnOk result (office.new.setup ≡ office.old.setup) }
    ensures voted { IfOk result (λ count. IsVoted office.new count ballots ballots) }
{
    let mut number = 0;
    for before in 0..ballots {
        number = vote_one(alloc, office, keeper, index, number, before, ballots)?;
    }
    Ok(number)
}

/// Asks for the close and the draw, behind so many acts.
fn end(
    alloc: Global,
    office: &mut Office,
    keeper: &mut Steady,
    number: u32,
    sample: Sample,
) -> Result<(), NoMemory>
    requires few { sample.ballots ≤ 9000 }
    requires setup { office.old.setup ≡ sample_setup sample.seed sample.ballots }
    requires voted { IsVoted office.old number sample.ballots sample.ballots }
    ensures setup { OnOk result (office.new.setup ≡ office.old.setup) }
    ensures stands { OnOk result (StandsFor office.new (sample_history sample.seed sample.ballots)) }
{
    let draw = sample_draw(alloc, sample.seed)?;
    ask(alloc, office, keeper, number, Act::Close)?;
    ask(alloc, office, keeper, number + 1, Act::Draw(draw))?;
    Ok(())
}

/// Asks for all acts of the sample.
#[tactic(none)]
fn ask_all(
    alloc: Global,
    office: &mut Office,
    keeper: &mut Steady,
    sample: Sample,
) -> Result<(), NoMemory>
    requires few { sample.ballots ≤ 9000 }
    requires setup { office.old.setup ≡ sample_setup sample.seed sample.ballots }
    requires voted { IsVoted office.old 0 0 sample.ballots }
    ensures setup { OnOk result (office.new.setup ≡ office.old.setup) }
    ensures stands { OnOk result (StandsFor office.new (sample_history sample.seed sample.ballots)) }
{
    let Ok(index) = BallotIndex::make(alloc, office.tables().plan()) else {
        return Err(NoMemory);
    };
    let Ok(number) = vote(alloc, office, keeper, &index, sample.ballots) else {
        return Err(NoMemory);
    };
    end(alloc, office, keeper, number, sample)
}

/// A keeper in memory that has begun with this setup.
fn begun(alloc: Global, setup: &Setup) -> Result<Steady, NoMemory>
    requires { IsSetup setup.now }
{
    let text = setup.text(alloc)?;
    let mut keeper = Steady::new(alloc);
    match keeper.begin(&text) {
        Ok(()) => Ok(keeper),
        Err(_) => Err(NoMemory),
    }
}

/// The office behind all acts of the sample, of one that has accepted nothing.
#[tactic(none)]
fn asked(alloc: Global, office: Office, keeper: Steady, sample: Sample) -> Result<Office, NoMemory>
    requires few { sample.ballots ≤ 9000 }
    requires setup { office.setup ≡ sample_setup sample.seed sample.ballots }
    requires voted { IsVoted office 0 0 sample.ballots }
    ensures setup { IfOk result (λ office. office.setup ≡ sample_setup sample.seed sample.ballots) }
    ensures stands { IfOk result (λ office. StandsFor office (sample_history sample.seed sample.ballots)) }
{
    let mut office = office;
    let mut keeper = keeper;
    match ask_all(alloc, &mut office, &mut keeper, sample) {
        Ok(()) => Ok(office),
        Err(_) => Err(NoMemory),
    }
}

/// The office of a sample behind all its acts. Its rows are kept in memory.
pub(crate) fn sample_office(alloc: Global, sample: Sample) -> Result<Office, NoMemory>
    requires some { 1 ≤ sample.ballots }
    requires few { sample.ballots ≤ 9000 }
    ensures setup { IfOk result (λ office. office.setup ≡ sample_setup sample.seed sample.ballots) }
    ensures stands { IfOk result (λ office. StandsFor office (sample_history sample.seed sample.ballots)) }
{
    let setup = sample_setup(alloc, sample.seed, sample.ballots)?;
    let keeper = begun(alloc, &setup)?;
    let office = Office::new(alloc, setup)?;
    asked(alloc, office, keeper, sample)
}
