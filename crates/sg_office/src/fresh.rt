//! An office that has accepted nothing yet.
ghost use Rattle.std.specs.Prelude.{◌≡◌, [], replicate, IfOk};
ghost use Rattle.sg_plan.specs.declared.plan.Fate.TheVariants as fate;
ghost use Rattle.sg_keeper.specs.SetupText.{IsSetup};
ghost use Rattle.sg_histories.specs.Standing.{IsOffice, StandsFor};

use crate::office::Office;
use sg_histories::{Kept, Slot};
use sg_keeper::Setup;
use sg_plan::{Fate, Items, NoMemory, Stage};
use std::alloc::Global;

/// So many ballots that were not used.
fn unused_slots(alloc: Global, count: u32) -> Result<Items<Slot>, NoMemory>
    ensures { IfOk result (λ slots. slots ≡ replicate count (record { fate = fate.Unused; station = 0 })) }
{
    let mut slots = Items::with_room(alloc, count as usize)?;
    for _at in 0..count {
        slots.push(Slot {
            fate: Fate::Unused,
            station: 0,
        })?;
    }
    Ok(slots)
}

/// What an office of this setup keeps that has accepted nothing.
#[tactic(auto, using(crate::proofs::NothingKept::fresh_office, crate::proofs::NothingKept::fresh_stands))]
fn nothing_kept(alloc: Global, setup: Setup) -> Result<Kept, NoMemory>
    requires { IsSetup setup }
    ensures office { IfOk result IsOffice }
    ensures setup { IfOk result (λ kept. kept.setup ≡ setup) }
    ensures stands { IfOk result (λ kept. StandsFor kept []) }
{
    let slots = unused_slots(alloc, setup.plan.ballots())?;
    Ok(Kept {
        setup,
        slots,
        stage: Stage::Voting,
        claims: Items::new(alloc),
        dones: Items::new(alloc),
    })
}

impl Office {
    /// The office of this setup, which has accepted nothing. It refuses for want of memory alone.
    pub fn new(alloc: Global, setup: Setup) -> Result<Office, NoMemory>
        requires { IsSetup setup }
        ensures setup { IfOk result (λ office. office.setup ≡ setup) }
        ensures stands { IfOk result (λ office. StandsFor office []) }
    {
        let kept = nothing_kept(alloc, setup)?;
        Office::with(alloc, kept)
    }
}
