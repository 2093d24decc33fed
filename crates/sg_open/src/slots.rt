//! What is known of each ballot, at first.
ghost use Rattle.std.specs.Prelude.{◌≡◌, replicate, IfOk};
ghost use Rattle.sg_plan.specs.declared.plan.Fate.TheVariants as fate;

use sg_histories::Slot;
use sg_plan::{Fate, Items, NoMemory};
use std::alloc::Global;

/// So many ballots that were not used.
pub fn unused_slots(alloc: Global, count: u32) -> Result<Items<Slot>, NoMemory>
    ensures { IfOk result (λ slots. slots ≡ replicate count (record { fate = fate.Unused; station = 0 })) }
{
    let mut slots = Items::with_room(alloc, count as usize)?;
    for _at in 0..count {
        slots.push(Slot {
            fate: Fate::Unused,
            station: 0,
        })?;
    }
    Ok(slots)
}
