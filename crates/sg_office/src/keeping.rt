//! An act is kept: in the list of what was done, and by the keeper.
ghost use Rattle.std.specs.Prelude.{◌≡◌, true, OnOk, OnErr, [], ◌∷◌, ◌++◌};
ghost use Rattle.sg_keeper.specs.Rows.{HasFaultCause, IsAsciiChange, IsNewChange, done_before, done_is, is_new, put, with_change};

use crate::done_list::DoneList;
use sg_histories::Claim;
use sg_keeper::{Change, KeepFault, Keeper};
use sg_plan::Items;
use std::alloc::Global;

/// Keeps a change, and at its place a copy of its row of what was done. All memory is taken before the keeper is called.
#[tactic(auto, using(crate::proofs::TakenBack::taken_back))]
pub fn keep<K: Keeper>(
    alloc: Global,
    dones: &mut DoneList,
    keeper: &mut K,
    change: &Change,
) -> Result<(), KeepFault>
    requires ascii { IsAsciiChange change.now }
    requires new { is_new done_is change.now.done dones.old ≡ true }
    ensures told { K.tells keeper.old → K.tells keeper.new }
    ensures ok { OnOk result (dones.new ≡ put done_before change.now.done dones.old) }
    ensures err { OnErr result (dones.new ≡ dones.old) }
    ensures kept { K.tells keeper.old → IsNewChange (K.rows keeper.old) change.now → OnOk result (K.rows keeper.new ≡ with_change (K.rows keeper.old) change.now) }
    ensures left { K.tells keeper.old → OnErr result (K.rows keeper.new ≡ K.rows keeper.old) }
    ensures cause { HasFaultCause (K.faults keeper.old) (K.faults keeper.new) result }
{
    dones.put(alloc, &change.done)?;
    match keeper.commit(change) {
        Ok(()) => Ok(()),
        Err(fault) => {
            dones.take_back(&change.done);
            Err(fault)
        }
    }
}

/// Keeps a claim, a change, and at its place a copy of its row of what was done.
#[tactic(auto, using(crate::proofs::Pushed::pushing))]
pub fn keep_claim<K: Keeper>(
    alloc: Global,
    claims: &mut Items<Claim>,
    dones: &mut DoneList,
    keeper: &mut K,
    claim: Claim,
    change: &Change,
) -> Result<(), KeepFault>
    requires ascii { IsAsciiChange change.now }
    requires new { is_new done_is change.now.done dones.old ≡ true }
    ensures told { K.tells keeper.old → K.tells keeper.new }
    ensures claim { OnOk result (claims.new ≡ claims.old ++ claim ∷ []) }
    ensures no_claim { OnErr result (claims.new ≡ claims.old) }
    ensures ok { OnOk result (dones.new ≡ put done_before change.now.done dones.old) }
    ensures err { OnErr result (dones.new ≡ dones.old) }
    ensures kept { K.tells keeper.old → IsNewChange (K.rows keeper.old) change.now → OnOk result (K.rows keeper.new ≡ with_change (K.rows keeper.old) change.now) }
    ensures left { K.tells keeper.old → OnErr result (K.rows keeper.new ≡ K.rows keeper.old) }
    ensures cause { HasFaultCause (K.faults keeper.old) (K.faults keeper.new) result }
{
    let end = claims.len();
    claims.push(claim)?;
    match keep(alloc, dones, keeper, change) {
        Ok(()) => Ok(()),
        Err(fault) => {
            claims.remove(end);
            Err(fault)
        }
    }
}
