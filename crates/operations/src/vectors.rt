// Operations on delete vectors. All here is internal.
ghost use Rattle.manifest.specs.Operations.{add_vector, delete_vector};
ghost use Rattle.version_state.specs.State.{state_of};
ghost use Rattle.operations.specs.Ready.{Turned};
ghost use Rattle.operations.specs.Working.{Same};

use crate::working::Working;
use ids::limits::MOST_HELD;
use ids::refusal::Refusal;
use snapshot::held::HeldColumns;
use snapshot::vectors::VectorIds;

impl Working<'_> {
    // `V`: adds a vector. Unlike `add_rowset` it asks for a pair that is shown, and for an id that no vector of any table has.
    #[tactic(auto, using(crate::proofs::Turns::vector_turns), unfolding(crate::specs::Ready::Turned, crate::specs::Ready::Leaves))]
    pub fn add_dv(&mut self, place: usize, ids: VectorIds) -> Result<(), Refusal>
        ensures told { Turned place self.old.epoch (add_vector ids.table.0 ids.rowset.0 ids.vector.0) (state_of self.old.inner.now) result (state_of self.new.inner.now) }
        ensures same { Same self.old self.new }
    {
        if !self.inner.rowsets.shows(ids.pair(), self.epoch) {
            return Err(Refusal::PairNotShown(place));
        }
        if self.inner.next.vector <= ids.vector {
            return Err(Refusal::IdNotDrawn(place));
        }
        if self.inner.vectors.numbered(ids.vector) {
            return Err(Refusal::StillHeld(place));
        }
        // No vector of any table has the id, so none is found.
        let at = self.inner.vectors.find(ids).unwrap_err();
        if MOST_HELD <= self.inner.vectors.count {
            return Err(Refusal::HeldFull(place));
        }
        self.inner.vectors.insert(at, ids, self.epoch);
        Ok(())
    }

    // `W`. As `delete_rowset`, but for the list and the refusal: one function would be no plainer.
    #[tactic(auto, unfolding(crate::specs::Ready::Turned, crate::specs::Ready::Leaves))]
    pub fn delete_dv(&mut self, place: usize, ids: VectorIds) -> Result<(), Refusal>
        ensures told { Turned place self.old.epoch (delete_vector ids.table.0 ids.rowset.0 ids.vector.0) (state_of self.old.inner.now) result (state_of self.new.inner.now) }
        ensures same { Same self.old self.new }
    {
        if !self.inner.vectors.delete(ids, self.epoch) {
            return Err(Refusal::VectorNotShown(place));
        }
        Ok(())
    }
}
