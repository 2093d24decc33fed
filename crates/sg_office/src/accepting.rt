//! How an office answers an ask: what it accepts, it keeps, and its keeper with it.
ghost use Rattle.std.specs.Prelude.{◌≡◌, ◌≢◌, ◌-◌, ◌<◌, ◌≤◌, ◌^◌, ◌∷◌, ◌++◌, [], List, IfOk, OnOk, OnErr, true, false, length, slice_set};
ghost use Rattle.sg_outside.specs.Faults.{Rose};
ghost use Rattle.sg_plan.specs.Ballots.{ballots_of};
ghost use Rattle.sg_keeper.specs.Rows.{HasFaultCause, IsAscii, IsAsciiChange, IsNewChange, done_is, is_new, with_change};
ghost use Rattle.sg_acts.specs.declared.asks.Ask.TheVariants as asked;
ghost use Rattle.sg_acts.specs.declared.asks.Look.{Look as Seen};
ghost use Rattle.sg_desks.specs.ActTexts.{act_text as text_of};
ghost use Rattle.sg_histories.specs.Answers.{accepts, is_done};
ghost use Rattle.sg_histories.specs.Histories.{Entry};
ghost use Rattle.sg_histories.specs.Lawful.{IsAskable};
ghost use Rattle.sg_histories.specs.Standing.{IsAsk, StandsFor, Turned};
ghost use Rattle.sg_office.specs.declared.ready.Part.TheVariants as part;
ghost use Rattle.sg_office.specs.inside.Ready.{Allows, FitsPart, IsReady, act_change, part_of, with_part};

use crate::keeping::{keep, keep_claim};
use crate::office::Office;
use crate::ready::{Part, Ready, ready_change, ready_part};
use sg_acts::{Act, Ask, Reply, Stamp};
use sg_histories::{Claim, Slot};
use sg_keeper::{Change, KeepFault, Keeper};
use sg_plan::{NoMemory, Stage, Word};
use std::alloc::Global;

impl Office {
    /// Keeps an act on a ballot. Totals that were counted are let go, since a fate changes.
    fn keep_ballot<K: Keeper>(
        &mut self,
        alloc: Global,
        keeper: &mut K,
        ballot: u32,
        slot: Slot,
        change: &Change,
    ) -> Result<(), KeepFault>
        requires first { 1 ≤ ballot }
        requires last { ballot ≤ ballots_of self.old.setup.plan }
        requires allowed { Allows self.old (with_part self.old (part.Ballot ballot slot) change.now.done) }
        requires new { is_new done_is change.now.done self.old.dones ≡ true }
        requires ascii { IsAsciiChange change.now }
        ensures told { K.tells keeper.old → K.tells keeper.new }
        ensures ok { OnOk result (self.new ≡ with_part self.old (part.Ballot ballot slot) change.now.done) }
        ensures err { OnErr result (self.new ≡ self.old) }
        ensures kept { K.tells keeper.old → IsNewChange (K.rows keeper.old) change.now → OnOk result (K.rows keeper.new ≡ with_change (K.rows keeper.old) change.now) }
        ensures left { K.tells keeper.old → OnErr result (K.rows keeper.new ≡ K.rows keeper.old) }
        ensures cause { HasFaultCause (K.faults keeper.old) (K.faults keeper.new) result }
    {
        match keep(alloc, &mut self.dones, keeper, change) {
            Ok(()) => {
                self.totals = None;
                self.slots.replace(ballot as usize - 1, slot);
                Ok(())
            }
            Err(fault) => Err(fault),
        }
    }

    /// Keeps the close or the draw.
    fn keep_stage<K: Keeper>(
        &mut self,
        alloc: Global,
        keeper: &mut K,
        stage: Stage,
        change: &Change,
    ) -> Result<(), KeepFault>
        requires allowed { Allows self.old (with_part self.old (part.Stage stage) change.now.done) }
        requires new { is_new done_is change.now.done self.old.dones ≡ true }
        requires ascii { IsAsciiChange change.now }
        ensures told { K.tells keeper.old → K.tells keeper.new }
        ensures ok { OnOk result (self.new ≡ with_part self.old (part.Stage stage) change.now.done) }
        ensures err { OnErr result (self.new ≡ self.old) }
        ensures kept { K.tells keeper.old → IsNewChange (K.rows keeper.old) change.now → OnOk result (K.rows keeper.new ≡ with_change (K.rows keeper.old) change.now) }
        ensures left { K.tells keeper.old → OnErr result (K.rows keeper.new ≡ K.rows keeper.old) }
        ensures cause { HasFaultCause (K.faults keeper.old) (K.faults keeper.new) result }
    {
        match keep(alloc, &mut self.dones, keeper, change) {
            Ok(()) => {
                self.stage = stage;
                Ok(())
            }
            Err(fault) => Err(fault),
        }
    }

    /// Keeps a claim.
    fn keep_claim<K: Keeper>(
        &mut self,
        alloc: Global,
        keeper: &mut K,
        claim: Claim,
        change: &Change,
    ) -> Result<(), KeepFault>
        requires allowed { Allows self.old (with_part self.old (part.Claim claim) change.now.done) }
        requires new { is_new done_is change.now.done self.old.dones ≡ true }
        requires ascii { IsAsciiChange change.now }
        ensures told { K.tells keeper.old → K.tells keeper.new }
        ensures ok { OnOk result (self.new ≡ with_part self.old (part.Claim claim) change.now.done) }
        ensures err { OnErr result (self.new ≡ self.old) }
        ensures kept { K.tells keeper.old → IsNewChange (K.rows keeper.old) change.now → OnOk result (K.rows keeper.new ≡ with_change (K.rows keeper.old) change.now) }
        ensures left { K.tells keeper.old → OnErr result (K.rows keeper.new ≡ K.rows keeper.old) }
        ensures cause { HasFaultCause (K.faults keeper.old) (K.faults keeper.new) result }
    {
        keep_claim(
            alloc,
            &mut self.claims,
            &mut self.dones,
            keeper,
            claim,
            change,
        )
    }

    /// Keeps what was made ready.
    fn keep_ready<K: Keeper>(
        &mut self,
        alloc: Global,
        keeper: &mut K,
        ready: Ready,
    ) -> Result<(), KeepFault>
        requires fits { FitsPart self.old.setup.plan ready.part }
        requires allowed { Allows self.old (with_part self.old ready.part ready.change.done) }
        requires new { is_new done_is ready.change.done self.old.dones ≡ true }
        requires ascii { IsAsciiChange ready.change }
        ensures told { K.tells keeper.old → K.tells keeper.new }
        ensures ok { OnOk result (self.new ≡ with_part self.old ready.part ready.change.done) }
        ensures err { OnErr result (self.new ≡ self.old) }
        ensures kept { K.tells keeper.old → IsNewChange (K.rows keeper.old) ready.change → OnOk result (K.rows keeper.new ≡ with_change (K.rows keeper.old) ready.change) }
        ensures left { K.tells keeper.old → OnErr result (K.rows keeper.new ≡ K.rows keeper.old) }
        ensures cause { HasFaultCause (K.faults keeper.old) (K.faults keeper.new) result }
    {
        let Ready { part, change } = ready;
        match part {
            Part::Ballot(ballot, slot) => self.keep_ballot(alloc, keeper, ballot, slot, &change),
            Part::Stage(stage) => self.keep_stage(alloc, keeper, stage, &change),
            Part::Claim(claim) => self.keep_claim(alloc, keeper, claim, &change),
        }
    }

    /// What a new act adds to the rows.
    fn change(
        &self,
        alloc: Global,
        stamp: &Stamp,
        act: &Act,
        text: Word,
    ) -> Result<Change, NoMemory>
        requires act { IsAskable self.now.setup act.now }
        requires text { text ≡ text_of self.now.setup.plan.version act.now }
        requires ascii { IsAscii text }
        requires few { length self.now.claims < 2 ^ 32 }
        ensures change { IfOk result (λ change. change ≡ act_change self.now.setup.plan.version (length self.now.claims) stamp.now act.now) }
        ensures ascii { IfOk result IsAsciiChange }
    {
        let version = self.tables.plan().version;
        ready_change(alloc, version, self.claims.len() as u32, stamp, act, text)
    }

    /// A new act, made ready.
    fn ready(&self, alloc: Global, stamp: &Stamp, act: &Act, text: Word) -> Result<Ready, NoMemory>
        requires act { IsAskable self.now.setup act.now }
        requires text { text ≡ text_of self.now.setup.plan.version act.now }
        requires ascii { IsAscii text }
        requires few { length self.now.claims < 2 ^ 32 }
        ensures ready { IfOk result (λ ready. IsReady ready (part_of self.now.slots stamp.now.station act.now) (act_change self.now.setup.plan.version (length self.now.claims) stamp.now act.now)) }
        ensures ascii { IfOk result (λ ready. IsAsciiChange ready.change) }
    {
        self.office_law();
        let change = self.change(alloc, stamp, act, text)?;
        let part = ready_part(alloc, &self.slots, stamp.station, act)?;
        Ok(Ready { part, change })
    }

    /// Accepts a new act.
    fn accept<K: Keeper>(
        &mut self,
        alloc: Global,
        keeper: &mut K,
        stamp: &Stamp,
        act: &Act,
        text: Word,
    ) -> Reply
        requires number { stamp.now.number < 2 ^ 32 }
        requires act { IsAskable self.old.setup act.now }
        requires text { text ≡ text_of self.old.setup.plan.version act.now }
        requires ascii { IsAscii text }
        requires accepted { (history : List Entry) → StandsFor self.old history → accepts self.old.setup history stamp.now act.now ≡ true }
        ensures told { K.tells keeper.old → K.tells keeper.new }
        ensures turn { (history : List Entry) → StandsFor self.old history
            → Turned self.old self.new (K.tells keeper.old) (K.rows keeper.old) (K.rows keeper.new) (asked.Do stamp.now act.now) result history }
        ensures unchanged { is_done result ≡ false → self.new ≡ self.old }
        ensures left { K.tells keeper.old → is_done result ≡ false → K.rows keeper.new ≡ K.rows keeper.old }
        ensures later { K.faults keeper.old ≤ K.faults keeper.new }
        ensures cause { result ≡ Reply.Store → Rose (K.faults keeper.old) (K.faults keeper.new) }
        ensures unfailed { result ≢ Reply.Store → K.faults keeper.new ≡ K.faults keeper.old }
    {
        self.office_law();
        let Ok(body) = self.body(alloc, act) else {
            return Reply::Memory;
        };
        let Ok(ready) = self.ready(alloc, stamp, act, text) else {
            return Reply::Memory;
        };
        match self.keep_ready(alloc, keeper, ready) {
            Ok(()) => Reply::Done(body),
            Err(KeepFault::NoMemory) => Reply::Memory,
            Err(KeepFault::Failed) => Reply::Store,
        }
    }

    /// Answers a station's act.
    fn act<K: Keeper>(&mut self, alloc: Global, keeper: &mut K, stamp: &Stamp, act: &Act) -> Reply
        requires number { stamp.now.number < 2 ^ 32 }
        requires act { IsAskable self.old.setup act.now }
        ensures told { K.tells keeper.old → K.tells keeper.new }
        ensures turn { (history : List Entry) → StandsFor self.old history
            → Turned self.old self.new (K.tells keeper.old) (K.rows keeper.old) (K.rows keeper.new) (asked.Do stamp.now act.now) result history }
        ensures unchanged { is_done result ≡ false → self.new ≡ self.old }
        ensures left { K.tells keeper.old → is_done result ≡ false → K.rows keeper.new ≡ K.rows keeper.old }
        ensures later { K.faults keeper.old ≤ K.faults keeper.new }
        ensures cause { result ≡ Reply.Store → Rose (K.faults keeper.old) (K.faults keeper.new) }
        ensures unfailed { result ≢ Reply.Store → K.faults keeper.new ≡ K.faults keeper.old }
    {
        self.office_law();
        let Ok(text) = self.text(alloc, act) else {
            return Reply::Memory;
        };
        let Ok(early) = self.early(alloc, stamp, act, &text) else {
            return Reply::Memory;
        };
        match early {
            Some(reply) => reply,
            None => self.accept(alloc, keeper, stamp, act, text),
        }
    }

    /// Answers an ask: the reply and the office's next history are those of `answer_of` and `next_history`, but for want
    /// of memory and a keeper that fails.
    ///
    /// An act is refused by the first of these that holds. `Secret`: the station is not in the setup, or the secret is not
    /// its own. `Ref`: the station gave the number to another act that was accepted; to the same act, the first body is
    /// given again. `Phase`: the act does not come in this phase. `Ballot`: the ballot is not in the plan. `Fate`: the
    /// ballot was used, or for a void it is not cast. `Race`: the least mark that names no race of the ballot, or a claim
    /// of no race of it. `Station`: the void comes from the station that scanned the ballot. `Candidate`, `Twice`: the
    /// least mark that names no candidate of its race, or stands before. `Paper`: not a list for each race, with as many
    /// codes as it has candidates. `Draw`: not 1 to 4,096 public bytes. `Full`: 10,000 claims are kept.
    ///
    /// Every reply but `Done` leaves the office and the keeper's rows as they were. `Memory` is want of memory, `Store`
    /// comes only where the keeper's count of faults rose. All memory is taken before the keeper is called, so what it
    /// has kept is answered `Done`. A number is found in the logarithm of the acts that were accepted.
    pub fn answer<K: Keeper>(&mut self, alloc: Global, keeper: &mut K, ask: &Ask) -> Reply
        requires ask { IsAsk self.old.setup ask.now }
        ensures told { K.tells keeper.old → K.tells keeper.new }
        ensures turn { (history : List Entry) → StandsFor self.old history
            → Turned self.old self.new (K.tells keeper.old) (K.rows keeper.old) (K.rows keeper.new) ask.now result history }
        ensures look { (seen : Seen) → ask.now ≡ asked.See seen → self.new ≡ self.old }
        ensures setup { self.new.setup ≡ self.old.setup }
        ensures unchanged { is_done result ≡ false → self.new ≡ self.old }
        ensures left { K.tells keeper.old → is_done result ≡ false → K.rows keeper.new ≡ K.rows keeper.old }
        ensures later { K.faults keeper.old ≤ K.faults keeper.new }
        ensures cause { result ≡ Reply.Store → Rose (K.faults keeper.old) (K.faults keeper.new) }
        ensures unfailed { result ≢ Reply.Store → K.faults keeper.new ≡ K.faults keeper.old }
    {
        self.office_law();
        match ask {
            Ask::Do(stamp, act) => self.act(alloc, keeper, stamp, act),
            Ask::See(look) => match self.look(alloc, look) {
                Ok(reply) => reply,
                Err(NoMemory) => Reply::Memory,
            },
        }
    }
}
