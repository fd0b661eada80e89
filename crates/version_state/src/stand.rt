// 17: what an epoch shows without what it rests on. All here is internal. The structs of the C interface cannot say that their counts are
// within the columns and their lists in order, so that each function asks for it.
ghost use Rattle.std.specs.Prelude.{◌≡◌, true};
ghost use Rattle.lists.specs.Keyed.{keep, all_of};
ghost use Rattle.snapshot.specs.Entries.{shown_by};
ghost use Rattle.version_state.specs.State.{State, state_of, Fit};
ghost use Rattle.version_state.specs.Sound.{has_table, has_rowset, in_walking_order, left_behind};

use crate::VersionManagerInner;
use snapshot::held::HeldColumns;

impl VersionManagerInner {
    // Each vector that the epoch shows has its rowset among those that it shows. The two lists are walked side by side, as below: one
    // function over both would be no plainer.
    fn vectors_stand(&self, epoch: u32) -> bool
        requires fits { Fit self.now }
        requires rises { in_walking_order (state_of self.now) ≡ true }
        ensures { result ≡ all_of (has_rowset (keep (shown_by epoch) (state_of self.now).pairs)) (keep (shown_by epoch) (state_of self.now).vectors) }
    {
        let mut at = 0;
        for v in self.vectors.shown(epoch) {
            let pair = v.ids.pair();
            at = self.rowsets.from_on(at, pair);
            if !self.rowsets.shows_at(at, pair, epoch) {
                return false;
            }
        }
        true
    }

    // Each rowset that the epoch shows has its table. The two lists are walked side by side, as above; a table is looked for by one
    // id, and no epoch hides it, so that one function would be no plainer.
    fn rowsets_stand(&self, epoch: u32) -> bool
        requires fits { Fit self.now }
        requires rises { in_walking_order (state_of self.now) ≡ true }
        ensures { result ≡ all_of (has_table (state_of self.now).tables) (keep (shown_by epoch) (state_of self.now).pairs) }
    {
        let mut at = 0;
        for r in self.rowsets.shown(epoch) {
            at = self.tables.from_on(at, r.ids.table);
            if !self.tables.stands_at(at, r.ids.table) {
                return false;
            }
        }
        true
    }

    // Whether the epoch shows a vector without its rowset, or a rowset without its table.
    pub fn left_behind(&self, epoch: u32) -> bool
        requires fits { Fit self.now }
        requires rises { in_walking_order (state_of self.now) ≡ true }
        ensures { result ≡ left_behind epoch (state_of self.now) }
    {
        !(self.vectors_stand(epoch) && self.rowsets_stand(epoch))
    }
}
