//! What an office answers before it keeps anything: refusals, repeats and the bodies of acts.
ghost use Rattle.std.specs.Prelude.{◌≡◌, if◌then◌else◌, ◌<◌, ◌≤◌, List, IfOk, length};
ghost use Rattle.sg_plan.specs.Ballots.{ballot_row as row_of, ballots_of};
ghost use Rattle.sg_tables.specs.Posts.{right_word};
ghost use Rattle.sg_desks.specs.ActTexts.{HasNumbers, act_text as text_of};
ghost use Rattle.sg_keeper.specs.Rows.{IsAscii};
ghost use Rattle.sg_acts.specs.declared.asks.Act.TheVariants as act;
ghost use Rattle.sg_acts.specs.declared.replies.Body.TheVariants as body;
ghost use Rattle.sg_histories.specs.Answers.{body_with, early_reply, is_ballot as in_plan, look_reply, receipt_of, repeat_of, totals_of};
ghost use Rattle.sg_histories.specs.Histories.{Entry, phase_word as phase_now};
ghost use Rattle.sg_histories.specs.Lawful.{IsAskable};
ghost use Rattle.sg_histories.specs.Standing.{StandsFor};
ghost use Rattle.sg_office.specs.inside.Now.{FitsBody, fate_at as fate_in, refusal_now};

use crate::looks::{copy_totals, receipt};
use crate::office::Office;
use crate::refusals::{
    audit_refusal, claim_refusal, close_refusal, draw_refusal, early_refusal, is_ballot,
    scan_refusal, void_refusal,
};
use crate::slots::{fate_at, phase_word, scanner_at, word_at};
use crate::stamps::knows_secret;
use crate::stories::tell_fates;
use sg_acts::{Act, Body, Look, Phase, Reply, Stamp};
use sg_desks::laws::texts_law;
use sg_desks::{act_text, claim_word, paper_matches};
use sg_histories::laws::stories_law;
use sg_plan::{ClaimWord, Fate, Items, NoMemory, Word};
use sg_post::total_fates;
use std::alloc::Global;

impl Office {
    /// The text of an act.
    pub(crate) fn text(&self, alloc: Global, act: &Act) -> Result<Word, NoMemory>
        requires { IsAskable self.now.setup act.now }
        ensures text { IfOk result (λ text. text ≡ text_of self.now.setup.plan.version act.now) }
        ensures ascii { IfOk result IsAscii }
        ensures numbers { IfOk result (λ text. HasNumbers act.now) }
    {
        act_text(alloc, self.tables.plan().version, act)
    }

    /// Why a station's new act is refused.
    fn refusal(&self, station: u32, act: &Act) -> Option<Reply>
        requires { IsAskable self.now.setup act.now }
        ensures { result ≡ refusal_now self.now station act.now }
    {
        let index = &self.index;
        let phase = phase_word(&self.stage);
        match act {
            Act::Scan(ballot, marks) => {
                let fate = word_at(&self.slots, *ballot);
                scan_refusal(index, phase, fate, *ballot, marks)
            }
            Act::Spoil(ballot) => {
                let fate = word_at(&self.slots, *ballot);
                early_refusal(index, phase, fate, *ballot)
            }
            Act::Audit(ballot, paper) => {
                let fate = word_at(&self.slots, *ballot);
                audit_refusal(index, phase, fate, *ballot, paper)
            }
            Act::Close => close_refusal(phase),
            Act::Draw(draw) => draw_refusal(phase, draw),
            Act::Claim(ballot, race, _) => {
                claim_refusal(index, phase, self.claims.len(), *ballot, *race)
            }
            Act::Void(ballot) => {
                let fate = word_at(&self.slots, *ballot);
                let scanner = scanner_at(&self.slots, *ballot);
                void_refusal(index, phase, fate, scanner, station, *ballot)
            }
        }
    }

    /// The right answer to a claim.
    fn claimed(&self, ballot: u32, race: u32, code: u16) -> ClaimWord
        requires { FitsBody self.now.setup.plan (act.Claim ballot race code) }
        ensures { result ≡ right_word self.now.setup.plan self.now.setup.seed.0 race (row_of self.now.setup.plan race ballot) (fate_in self.now.slots ballot) code }
    {
        let fate = fate_at(&self.slots, ballot);
        claim_word(&self.tables, &self.index, ballot, fate, race, code)
    }

    /// What an accepted act is answered.
    pub(crate) fn body(&self, alloc: Global, act: &Act) -> Result<Body, NoMemory>
        requires { FitsBody self.now.setup.plan act.now }
        ensures { IfOk result (λ body. body ≡ body_with self.now.setup (fate_in self.now.slots) act.now) }
    {
        match act {
            Act::Scan(_, marks) => {
                let fate = Fate::Cast(marks.copy(alloc)?);
                let over = self.tables.void_races(alloc, &fate)?;
                Ok(Body::Scanned(over))
            }
            Act::Spoil(_) => Ok(Body::Spoiled),
            Act::Audit(ballot, paper) => {
                let matches = paper_matches(&self.tables, &self.index, *ballot, paper);
                Ok(Body::Audited(matches))
            }
            Act::Close => Ok(Body::Closed),
            Act::Draw(_) => Ok(Body::Drawn),
            Act::Claim(ballot, race, code) => {
                let word = self.claimed(*ballot, *race, *code);
                Ok(Body::Claimed(word))
            }
            Act::Void(_) => Ok(Body::Voided),
        }
    }

    /// The reply where the station's number was accepted before.
    #[tactic(auto, using(crate::proofs::Repeats::repeat_told))]
    fn repeat(
        &self,
        alloc: Global,
        stamp: &Stamp,
        act: &Act,
        text: &Word,
    ) -> Result<Option<Reply>, NoMemory>
        requires numbers { HasNumbers act.now }
        requires act { IsAskable self.now.setup act.now }
        requires text { text.now ≡ text_of self.now.setup.plan.version act.now }
        ensures { (history : List Entry) → StandsFor self.now history → IfOk result (λ reply. reply ≡ repeat_of self.now.setup history stamp.now act.now) }
    {
        self.office_law();
        texts_law();
        match self.dones.text_at(stamp.station, stamp.number) {
            None => Ok(None),
            Some(kept) => {
                if kept.equals(text) {
                    let body = self.body(alloc, act)?;
                    Ok(Some(Reply::Done(body)))
                } else {
                    let copy = kept.copy(alloc)?;
                    Ok(Some(Reply::Ref(copy)))
                }
            }
        }
    }

    /// The reply to an act, and nothing where it is new and accepted.
    #[tactic(auto, using(crate::proofs::NowTold::refusal_told))]
    pub(crate) fn early(
        &self,
        alloc: Global,
        stamp: &Stamp,
        act: &Act,
        text: &Word,
    ) -> Result<Option<Reply>, NoMemory>
        requires numbers { HasNumbers act.now }
        requires act { IsAskable self.now.setup act.now }
        requires text { text.now ≡ text_of self.now.setup.plan.version act.now }
        ensures { (history : List Entry) → StandsFor self.now history → IfOk result (λ reply. reply ≡ early_reply self.now.setup history stamp.now act.now) }
    {
        if !knows_secret(&self.secrets, stamp) {
            return Ok(Some(Reply::Secret));
        }
        if let Some(reply) = self.repeat(alloc, stamp, act, text)? {
            return Ok(Some(reply));
        }
        Ok(self.refusal(stamp.station, act))
    }

    /// The reply to a look at a ballot, once votes are counted.
    fn receipt(&self, alloc: Global, ballot: u32) -> Result<Reply, NoMemory>
        ensures { IfOk result (λ reply. reply ≡ (if in_plan self.now.setup.plan ballot then Reply.Done (body.Receipt (receipt_of self.now.setup.plan self.now.setup.seed.0 ballot (fate_in self.now.slots ballot))) else Reply.Ballot)) }
    {
        if !is_ballot(&self.index, ballot) {
            return Ok(Reply::Ballot);
        }
        let fate = fate_at(&self.slots, ballot);
        let receipt = receipt(alloc, &self.tables, &self.index, ballot, fate)?;
        Ok(Reply::Done(Body::Receipt(receipt)))
    }

    /// The totals that the fates of the ballots make. No flag is made for them, and no claim is answered.
    fn count_totals(&self, alloc: Global) -> Result<Items<Items<u32>>, NoMemory>
        ensures { IfOk result (λ totals. totals ≡ totals_of self.now.setup.plan self.now.setup.seed.0 (fate_in self.now.slots)) }
    {
        self.office_law();
        stories_law();
        let fates = tell_fates(alloc, &self.index, &self.slots)?;
        total_fates(alloc, &self.tables, &self.index, &fates)
    }

    /// The totals that the fates of the ballots make. They are counted where no look has done so since a fate changed, and
    /// else copied from those that were.
    fn totals(&mut self, alloc: Global) -> Result<Items<Items<u32>>, NoMemory>
        ensures totals { IfOk result (λ totals. totals ≡ totals_of self.old.setup.plan self.old.setup.seed.0 (fate_in self.old.slots)) }
        ensures same { self.new ≡ self.old }
    {
        if let Some(totals) = &self.totals {
            return copy_totals(alloc, totals);
        }
        let totals = self.count_totals(alloc)?;
        let copy = copy_totals(alloc, &totals)?;
        self.totals = Some(totals);
        Ok(copy)
    }

    /// The reply to a look. Votes are counted from the close on; what was counted for a look is kept for later ones.
    pub(crate) fn look(&mut self, alloc: Global, look: &Look) -> Result<Reply, NoMemory>
        ensures reply { IfOk result (λ reply. reply ≡ look_reply self.old.setup (phase_now self.old.stage) (fate_in self.old.slots) look.now) }
        ensures same { self.new ≡ self.old }
    {
        match phase_word(&self.stage) {
            Phase::Voting => return Ok(Reply::Phase(Phase::Voting)),
            Phase::Closed => {}
            Phase::Drawn => {}
        }
        match look {
            Look::Receipt(ballot) => self.receipt(alloc, *ballot),
            Look::Totals => Ok(Reply::Done(Body::Totals(self.totals(alloc)?))),
        }
    }
}
