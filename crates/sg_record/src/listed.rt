//! A record as what is posted: it has all of it as lists.
use crate::blocks::{put_blocks, put_disputes};
use crate::commits::{put_code_commit, put_row_commit};
use crate::lines::put_section_seal;
use crate::one_line::put_lines;
use crate::pen::Pen;
use crate::posts::Posts;
use crate::record::Record;
use sg_outside::{Failed, Sink};
use sg_plan::{BallotIndex, Draw, Items, Plan};

impl Posts for Record {
    ghost use Rattle.std.specs.Prelude.{◌≡◌, true};
    ghost use Rattle.sg_record.specs.Formed.{is_formed};

    ghost posted = { λ listed. listed };

    ghost is_ready = { λ listed. is_formed listed ≡ true };

    ghost wants_seal = { ⊥ };

    fn plan(&self) -> &Plan {
        &self.plan
    }

    fn draw(&self) -> &Draw {
        &self.draw
    }

    fn flags(&self) -> &Items<Items<Items<bool>>> {
        &self.flags
    }

    fn places(&self) -> &Items<Items<bool>> {
        &self.places
    }

    fn totals(&self) -> &Items<Items<u32>> {
        &self.totals
    }

    fn put_race_codes<O: Sink>(&self, pen: &mut Pen, race: u32, out: &mut O) -> Result<(), Failed> {
        let digests = self.code_commits.get(race as usize);
        for at in 0..digests.len() {
            put_code_commit(pen, race, digests.get(at), out)?;
        }
        Ok(())
    }

    fn put_instance_commits<O: Sink>(
        &self,
        pen: &mut Pen,
        race: u32,
        instance: u32,
        out: &mut O,
    ) -> Result<(), Failed> {
        let instances = self.row_commits.get(race as usize);
        let rows = instances.get(instance as usize);
        for at in 0..rows.len() {
            put_row_commit(pen, race, instance, rows.get(at), out)?;
        }
        Ok(())
    }

    fn put_blocks<O: Sink>(
        &self,
        pen: &mut Pen,
        index: &BallotIndex,
        out: &mut O,
    ) -> Result<(), Failed> {
        put_blocks(pen, index, &self.ballots, out)
    }

    fn put_instance_rows<O: Sink>(
        &self,
        pen: &mut Pen,
        race: u32,
        instance: u32,
        out: &mut O,
    ) -> Result<(), Failed> {
        let instances = self.rows.get(race as usize);
        let rows = instances.get(instance as usize);
        put_lines(pen, rows, out)
    }

    fn put_disputes<O: Sink>(
        &self,
        pen: &mut Pen,
        index: &BallotIndex,
        out: &mut O,
    ) -> Result<(), Failed> {
        let _ = index;
        put_disputes(pen, &self.disputes, out)
    }

    fn put_seal<O: Sink>(&self, pen: &mut Pen, section: u32, out: &mut O) -> Result<(), Failed> {
        put_section_seal(pen, section, &self.seals, out)
    }
}
