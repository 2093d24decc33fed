//! What an office posts of a story, as the writer of a record asks for it.
use crate::ballots::put_ballots;
use crate::commitments::{put_instance_commits, put_race_commits};
use crate::disputes::put_claims;
use crate::openings::put_instance_rows;
use crate::posting::Posting;
use crate::story::Story;
use sg_outside::{Failed, Sink};
use sg_plan::{BallotIndex, Draw, Items, Plan};
use sg_record::{Pen, Posts};
use sg_streams::Seed;
use sg_tables::Tables;

/// What is posted of a story with this draw: the tables, what the story makes of them, and the seed of the coins.
#[derive(Clone, Copy)]
pub struct Poster<'a> {
    pub tables: &'a Tables,
    pub posting: &'a Posting,
    pub story: &'a Story,
    pub draw: &'a Draw,
    pub key: Seed,
}

impl<'a> Posts for Poster<'a> {
    ghost use Rattle.sg_post.specs.Posted.{posted_record};
    ghost use Rattle.sg_post.specs.inside.Ready.{IsReady};

    ghost posted = { λ poster. posted_record poster.tables.now.plan poster.tables.now.seed poster.story.now.fates poster.draw.now poster.story.now.claims };

    ghost is_ready = { λ poster. IsReady poster.tables.now poster.story.now poster.posting.now poster.draw.now poster.key.0 };

    ghost wants_seal = { Unit {0} };

    fn plan(&self) -> &Plan {
        self.tables.plan()
    }

    fn draw(&self) -> &Draw {
        self.draw
    }

    fn flags(&self) -> &Items<Items<Items<bool>>> {
        &self.posting.flags
    }

    fn places(&self) -> &Items<Items<bool>> {
        &self.posting.places
    }

    fn totals(&self) -> &Items<Items<u32>> {
        &self.posting.totals
    }

    fn put_race_codes<O: Sink>(&self, pen: &mut Pen, race: u32, out: &mut O) -> Result<(), Failed> {
        put_race_commits(pen, self.tables, race, out)
    }

    fn put_instance_commits<O: Sink>(
        &self,
        pen: &mut Pen,
        race: u32,
        instance: u32,
        out: &mut O,
    ) -> Result<(), Failed> {
        put_instance_commits(pen, self.tables, race, instance, out)
    }

    fn put_blocks<O: Sink>(
        &self,
        pen: &mut Pen,
        index: &BallotIndex,
        out: &mut O,
    ) -> Result<(), Failed> {
        put_ballots(pen, self.tables, index, &self.story.fates, out)
    }

    fn put_instance_rows<O: Sink>(
        &self,
        pen: &mut Pen,
        race: u32,
        instance: u32,
        out: &mut O,
    ) -> Result<(), Failed> {
        put_instance_rows(pen, self, race, instance, out)
    }

    fn put_disputes<O: Sink>(
        &self,
        pen: &mut Pen,
        index: &BallotIndex,
        out: &mut O,
    ) -> Result<(), Failed> {
        put_claims(pen, self.tables, index, &self.story.claims, out)
    }

    fn put_seal<O: Sink>(&self, pen: &mut Pen, section: u32, out: &mut O) -> Result<(), Failed> {
        pen.put_seal(section, out)
    }
}
