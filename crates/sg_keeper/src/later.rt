//! Rows that came later, in the order in which they came.
ghost use Rattle.std.specs.Prelude.{◌≡◌, [], IfOk, OnOk, OnErr};
ghost use Rattle.sg_keeper.specs.inside.Later.{with_both, with_later, with_one};

use crate::copies::copy_text;
use crate::keyed::Keyed;
use crate::placed::all_of;
use crate::rows::{BallotRow, Change, ChangeRow, ClaimRow, DoneRow, Rows, StageRow, VoidRow};
use sg_plan::{Items, NoMemory};
use std::alloc::Global;

/// Rows that came later: of each kind a list in the order in which they came.
#[derive(Debug, Drop)]
pub(crate) struct Later {
    pub(crate) ballots: Items<BallotRow>,
    pub(crate) stages: Items<StageRow>,
    pub(crate) claims: Items<ClaimRow>,
    pub(crate) voids: Items<VoidRow>,
    pub(crate) dones: Items<DoneRow>,
}

impl Later {
    /// None came. It takes no memory.
    pub(crate) fn new(alloc: Global) -> Later
        ensures { result ≡ record { ballots = []; stages = []; claims = []; voids = []; dones = [] } }
    {
        Later {
            ballots: Items::new(alloc),
            stages: Items::new(alloc),
            claims: Items::new(alloc),
            voids: Items::new(alloc),
            dones: Items::new(alloc),
        }
    }

    /// Adds a row behind those of its kind.
    fn add_row(&mut self, alloc: Global, row: &ChangeRow) -> Result<(), NoMemory>
        ensures ok { OnOk result (self.new ≡ with_one self.old row.now) }
        ensures err { OnErr result (self.new ≡ self.old) }
    {
        match row {
            ChangeRow::Ballot(row) => self.ballots.push(row.copy(alloc)?),
            ChangeRow::Stage(row) => self.stages.push(row.copy(alloc)?),
            ChangeRow::Claim(row) => self.claims.push(*row),
            ChangeRow::Void(row) => self.voids.push(*row),
        }
    }

    /// Adds both rows of a change.
    pub(crate) fn add(&mut self, alloc: Global, change: &Change) -> Result<(), NoMemory>
        ensures ok { OnOk result (self.new ≡ with_both self.old change.now) }
        ensures err { OnErr result (self.new ≡ self.old) }
    {
        let place = self.dones.len();
        self.dones.push(change.done.copy(alloc)?)?;
        match self.add_row(alloc, &change.row) {
            Ok(()) => Ok(()),
            Err(NoMemory) => {
                self.dones.remove(place);
                Err(NoMemory)
            }
        }
    }
}

/// Copies of the first rows, with copies of those that came later put in at their places.
pub(crate) fn all_rows(alloc: Global, first: &Rows, later: &Later) -> Result<Rows, NoMemory>
    ensures { IfOk result (λ rows. rows ≡ with_later first.now later.now) }
{
    let setup = copy_text(alloc, &first.setup)?;
    let ballots = all_of(alloc, &first.ballots, &later.ballots)?;
    let stages = all_of(alloc, &first.stages, &later.stages)?;
    let claims = all_of(alloc, &first.claims, &later.claims)?;
    let voids = all_of(alloc, &first.voids, &later.voids)?;
    let dones = all_of(alloc, &first.dones, &later.dones)?;
    Ok(Rows {
        setup,
        ballots,
        stages,
        claims,
        voids,
        dones,
    })
}
