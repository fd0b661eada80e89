// Operations on pairs. All here is internal.
ghost use Rattle.manifest.specs.Operations.{add_rowset, delete_rowset};
ghost use Rattle.version_state.specs.State.{state_of};
ghost use Rattle.operations.specs.Ready.{Turned};
ghost use Rattle.operations.specs.Working.{Same};

use crate::working::Working;
use ids::limits::MOST_HELD;
use ids::refusal::Refusal;
use snapshot::held::HeldColumns;
use snapshot::rowsets::RowsetIds;

impl Working<'_> {
    // `A`: adds a rowset.
    #[tactic(auto, using(crate::proofs::Turns::rowsets_count), unfolding(crate::specs::Ready::Turned, crate::specs::Ready::Leaves))]
    pub fn add_rowset(&mut self, place: usize, ids: RowsetIds) -> Result<(), Refusal>
        ensures told { Turned place self.old.epoch (add_rowset ids.table.0 ids.rowset.0) (state_of self.old.inner.now) result (state_of self.new.inner.now) }
        ensures same { Same self.old self.new }
    {
        if !self.inner.tables.holds(ids.table) {
            return Err(Refusal::TableNotLive(place));
        }
        if self.inner.next.rowset <= ids.rowset {
            return Err(Refusal::IdNotDrawn(place));
        }
        let Err(at) = self.inner.rowsets.find(ids) else {
            return Err(Refusal::StillHeld(place));
        };
        if MOST_HELD <= self.inner.rowsets.count {
            return Err(Refusal::HeldFull(place));
        }
        self.inner.rowsets.insert(at, ids, self.epoch);
        Ok(())
    }

    // `D`. As `delete_dv`, but for the list and the refusal, which are all there is to it: one function would be no plainer.
    #[tactic(auto, unfolding(crate::specs::Ready::Turned, crate::specs::Ready::Leaves))]
    pub fn delete_rowset(&mut self, place: usize, ids: RowsetIds) -> Result<(), Refusal>
        ensures told { Turned place self.old.epoch (delete_rowset ids.table.0 ids.rowset.0) (state_of self.old.inner.now) result (state_of self.new.inner.now) }
        ensures same { Same self.old self.new }
    {
        if !self.inner.rowsets.delete(ids, self.epoch) {
            return Err(Refusal::PairNotShown(place));
        }
        Ok(())
    }
}
