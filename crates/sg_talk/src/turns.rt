//! An office that answers the bytes of a line or of a request's body.
ghost use Rattle.std.specs.Prelude.{◌≡◌, ◌<◌, ◌≤◌, ◌^◌, List, IfOk, OnErr, true};
ghost use Rattle.sg_asks.specs.Asks.{IsAsked, asked};
ghost use Rattle.sg_asks.specs.Codes.{HasActCodes, HasCodes};
ghost use Rattle.sg_histories.specs.Histories.{Entry};
ghost use Rattle.sg_histories.specs.Lawful.{IsAskable};
ghost use Rattle.sg_histories.specs.Standing.{IsAsk, StandsFor};
ghost use Rattle.sg_keeper.specs.declared.setup.Setup.{Setup as SetupSeen};
ghost use Rattle.sg_lines.specs.Words.{IsBytes};
ghost use Rattle.sg_talk.specs.Answers.{IsWritable};
ghost use Rattle.sg_talk.specs.Turns.{CountsStore, HasAnswered, HasReplied, HasShown};

use crate::answered::Answered;
use sg_acts::{Act, Ask, Look};
use sg_asks::{AskFault, ask_of};
use sg_keeper::Keeper;
use sg_office::Office;
use sg_plan::{Draw, NoMemory};
use std::alloc::Global;

/// The most marks of a scan that can be counted by 32 bits.
const MOST_MARKS: usize = 4_294_967_295;

/// The numbers are bytes.
#[tactic(auto, using(sg_forms::proofs::WordKinds::bytes_everywhere))]
fn know_bytes(bytes: &[u8])
    ensures { IsBytes bytes.now }
{}

/// The number is one of 32 bits.
fn know_number(number: u32)
    ensures { number < 2 ^ 32 }
{}

/// The marks of the act can be counted by 32 bits. Those of every act in a text of less than 4 GiB can.
fn is_countable(act: &Act) -> bool
    ensures { (setup : SetupSeen) → HasActCodes setup.plan.version act.now → result ≡ true → IsAskable setup act.now }
{
    match act {
        Act::Scan(_, marks) => marks.len() <= MOST_MARKS,
        Act::Spoil(_) => true,
        Act::Audit(_, _) => true,
        Act::Close => true,
        Act::Draw(Draw::Full) => true,
        Act::Draw(Draw::Public(bytes)) => {
            know_bytes(bytes.bytes());
            true
        }
        Act::Claim(_, _, _) => true,
        Act::Void(_) => true,
    }
}

/// An office can be asked so.
fn can_come(ask: &Ask) -> bool
    ensures { (setup : SetupSeen) → HasCodes setup.plan.version ask.now → result ≡ true → IsAsk setup ask.now }
{
    match ask {
        Ask::Do(stamp, act) => {
            know_number(stamp.number);
            is_countable(act)
        }
        Ask::See(_) => true,
    }
}

/// The ask that the bytes are. One that can't come wants more memory than there is.
fn hear(alloc: Global, version: u32, bytes: &[u8]) -> Result<Ask, AskFault>
    ensures said { IsAsked result (asked version bytes.now) }
    ensures comes { (setup : SetupSeen) → setup.plan.version ≡ version → IfOk result (IsAsk setup) }
{
    let ask = ask_of(alloc, version, bytes)?;
    if can_come(&ask) {
        Ok(ask)
    } else {
        Err(AskFault::NoMemory)
    }
}

/// The version of the record that the office posts: 1 or 2.
pub fn version_of(office: &Office) -> u32
    ensures { result ≡ office.now.setup.plan.version }
{
    office.tables().plan().version
}

/// Answers the bytes of a line or of a request's body: the office's reply where they are an ask, and else why they are
/// none.
///
/// It refuses only for want of memory before the office is asked; then office and keeper are as before. Where memory is
/// wanted later, or the keeper fails, the answer says so.
pub fn answer_to<K: Keeper>(
    alloc: Global,
    office: &mut Office,
    keeper: &mut K,
    bytes: &[u8],
) -> Result<Answered, NoMemory>
    ensures told { K.tells keeper.old → K.tells keeper.new }
    ensures answers { (history : List Entry) → StandsFor office.old history
        → IfOk result (λ answer. HasAnswered office.old.setup office.new (K.tells keeper.old) (K.rows keeper.old) (K.rows keeper.new) bytes.now answer history) }
    ensures writable { IfOk result (IsWritable office.old.setup.plan.version) }
    ensures setup { office.new.setup ≡ office.old.setup }
    ensures stores { IfOk result (CountsStore (K.faults keeper.old) (K.faults keeper.new)) }
    ensures later { K.faults keeper.old ≤ K.faults keeper.new }
    ensures err { OnErr result ((office.new ≡ office.old) × (keeper.new ≡ keeper.old)) }
{
    office.office_law();
    let version = version_of(office);
    match hear(alloc, version, bytes) {
        Ok(ask) => Ok(Answered::Reply(office.answer(alloc, keeper, &ask))),
        Err(AskFault::NotJson) => Ok(Answered::NotJson),
        Err(AskFault::Shape) => Ok(Answered::Shape),
        Err(AskFault::NoMemory) => Err(NoMemory),
    }
}

/// Answers an ask that can come: the office's reply to it.
///
/// Where memory is wanted, or the keeper fails, the reply says so.
pub fn reply_to<K: Keeper>(
    alloc: Global,
    office: &mut Office,
    keeper: &mut K,
    ask: &Ask,
) -> Answered
    requires { IsAsk office.old.setup ask.now }
    ensures told { K.tells keeper.old → K.tells keeper.new }
    ensures replies { (history : List Entry) → StandsFor office.old history
        → HasReplied office.old.setup office.new (K.tells keeper.old) (K.rows keeper.old) (K.rows keeper.new) ask.now result history }
    ensures writable { IsWritable office.old.setup.plan.version result }
    ensures setup { office.new.setup ≡ office.old.setup }
    ensures stores { CountsStore (K.faults keeper.old) (K.faults keeper.new) result }
    ensures later { K.faults keeper.old ≤ K.faults keeper.new }
{
    office.office_law();
    Answered::Reply(office.answer(alloc, keeper, ask))
}

/// Answers a look: the office's reply to it.
///
/// The office is as before. Where memory is wanted, the reply says so.
pub fn show_to<K: Keeper>(
    alloc: Global,
    office: &mut Office,
    keeper: &mut K,
    look: Look,
) -> Answered
    ensures told { K.tells keeper.old → K.tells keeper.new }
    ensures shows { (history : List Entry) → StandsFor office.old history
        → HasShown office.old.setup office.new (K.tells keeper.old) (K.rows keeper.old) (K.rows keeper.new) look result history }
    ensures writable { IsWritable office.old.setup.plan.version result }
    ensures setup { office.new.setup ≡ office.old.setup }
    ensures stores { CountsStore (K.faults keeper.old) (K.faults keeper.new) result }
    ensures later { K.faults keeper.old ≤ K.faults keeper.new }
{
    reply_to(alloc, office, keeper, &Ask::See(look))
}
