//! The office, and what it gives of itself.
ghost use Rattle.std.specs.Prelude.{◌≡◌, List, IfOk, true};
ghost use Rattle.sg_post.specs.Fits.{story_fits};
ghost use Rattle.sg_post.specs.Posting.{IsPosting};
ghost use Rattle.sg_histories.specs.Histories.{Entry};
ghost use Rattle.sg_histories.specs.Standing.{IsOffice, StandsFor};
ghost use Rattle.sg_histories.specs.Stories.{story_of};
ghost use Rattle.sg_office.specs.inside.Now.{story_now};

use crate::done_list::DoneList;
use crate::stories::{answer_claims, copy_stage, tell_fates};
use sg_histories::laws::stories_law;
use sg_histories::{Claim, Kept, Slot};
use sg_keeper::Setup;
use sg_plan::{BallotIndex, Items, NoMemory, Stage};
use sg_post::{Posting, Story};
use sg_tables::Tables;
use std::alloc::Global;
use std::marker::Model;

/// An office. It keeps no list of the acts in their order.
///
/// Contracts see it as what it keeps, and speak of each history that it stands for.
#[derive(Drop)]
pub struct Office {
    pub(crate) tables: Tables,
    pub(crate) index: BallotIndex,
    pub(crate) secrets: Items<[u8; 16]>,
    pub(crate) slots: Items<Slot>,
    pub(crate) stage: Stage,
    pub(crate) claims: Items<Claim>,
    pub(crate) dones: DoneList,
    /// The totals of the fates that are kept, once they were counted for a look.
    pub(crate) totals: Option<Items<Items<u32>>>,
}

impl Model for Office {
    ghost use Rattle.std.specs.Prelude.{◌≡◌};
    ghost use Rattle.sg_histories.specs.declared.kept.Kept.{Kept};
    ghost use Rattle.sg_histories.specs.Standing.{IsOffice};
    ghost use Rattle.sg_office.specs.inside.Now.{AreTotals};

    ghost Value = { Kept };

    ghost view = { λ o. record {
      setup = record { plan = o.tables.plan; seed = record { 0 = o.tables.seed }; secrets = o.secrets };
      slots = o.slots;
      stage = o.stage;
      claims = o.claims;
      dones = o.dones;
    } };

    ghost invariant = { λ o. IsOffice (record {
      setup = record { plan = o.tables.plan; seed = record { 0 = o.tables.seed }; secrets = o.secrets };
      slots = o.slots;
      stage = o.stage;
      claims = o.claims;
      dones = o.dones;
    }) × (o.index ≡ o.tables.plan) × AreTotals o.tables.plan o.tables.seed o.slots o.totals };
}

impl Office {
    /// The office that keeps this: it makes the tables, an index of the plan's ballots, and a tree of the acts by their
    /// stamps. It refuses for want of memory alone.
    pub fn with(alloc: Global, kept: Kept) -> Result<Office, NoMemory>
        requires { IsOffice kept }
        ensures { IfOk result (λ office. office ≡ kept) }
    {
        let Kept {
            setup,
            slots,
            stage,
            claims,
            dones,
        } = kept;
        let Setup {
            plan,
            seed,
            secrets,
        } = setup;
        let dones = DoneList::of(alloc, dones)?;
        let tables = Tables::make(alloc, &plan, &seed)?;
        let index = BallotIndex::make(alloc, &plan)?;
        Ok(Office {
            tables,
            index,
            secrets,
            slots,
            stage,
            claims,
            dones,
            totals: None,
        })
    }

    /// What holds of every office: its plan keeps its limits, it has a slot for each ballot and at most 32 stations, and it
    /// stands for some history. It does nothing.
    pub fn office_law(&self)
        ensures { IsOffice self.now }
    {
        let _plan = self.tables.plan();
    }

    /// The tables of the office's plan and seed.
    pub fn tables(&self) -> &Tables
        ensures { result.now ≡ record { plan = self.now.setup.plan; seed = self.now.setup.seed.0 } }
    {
        &self.tables
    }

    /// What the office tells, from what it keeps.
    fn told(&self, alloc: Global) -> Result<Story, NoMemory>
        ensures { IfOk result (λ story. story ≡ story_now self.now) }
    {
        self.office_law();
        let fates = tell_fates(alloc, &self.index, &self.slots)?;
        let stage = copy_stage(alloc, &self.stage)?;
        let claims = answer_claims(alloc, &self.tables, &self.index, &self.slots, &self.claims)?;
        Ok(Story {
            fates,
            stage,
            claims,
        })
    }

    /// What the office tells: of each history that it stands for the story, which may be posted. It refuses for want of
    /// memory alone.
    pub fn story(&self, alloc: Global) -> Result<Story, NoMemory>
        ensures story { (history : List Entry) → StandsFor self.now history → IfOk result (λ story. story ≡ story_of self.now.setup history) }
        ensures fits { IfOk result (λ story. story_fits self.now.setup.plan story ≡ true) }
    {
        self.office_law();
        stories_law();
        let story = self.told(alloc)?;
        Ok(story)
    }

    /// The marks, flags, places and totals of the office's story. It refuses for want of memory alone.
    pub fn posting(&self, alloc: Global) -> Result<Posting, NoMemory>
        ensures { (history : List Entry) → StandsFor self.now history
            → IfOk result (λ posting. IsPosting self.now.setup.plan self.now.setup.seed.0 (story_of self.now.setup history).fates posting) }
    {
        let story = self.story(alloc)?;
        Posting::make(alloc, &self.tables, &story)
    }
}
