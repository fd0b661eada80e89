// The taken rowsets, lent as rising ids.
ghost use Rattle.std.specs.Prelude.{◌≡◌, ◌&&◌, [], ◌∷◌, ◌++◌, map, ◌+◌, ◌*◌, ◌≤◌, eqb, length};
ghost use Rattle.lists.specs.Keyed.{all_of, any_of, ascending};
ghost use Rattle.ids.specs.Ids.{is_id32};
ghost use Rattle.ids.specs.Limits.{most_operations, longest_line};
ghost use Rattle.manifest.specs.Operations.{delete_rowset};
ghost use Rattle.frames.specs.Frames.{texts_of};
ghost use Rattle.snapshot.specs.Views.{rowsets_of};
ghost use Rattle.operations.specs.Judge.{is_shown};
ghost use Rattle.table.specs.Made.{by_number};

use crate::Compaction;
use frames::Lines;
use ids::RowsetNo;
use ids::limits::LINE_BYTES;
use manifest::operation::EpochOp;
use snapshot::held::HeldColumns;
use snapshot::rowsets::RowsetIds;

// Ids, each above the one before it.
pub fn rising(taken: &[u32]) -> bool
    ensures { result ≡ all_of is_id32 taken.now && ascending by_number taken.now }
{
    taken.iter().all(|x| RowsetNo(*x).is_id()) && taken.is_sorted_by(|x, y| x < y)
}

impl Compaction<'_> {
    // Whether a rowset is taken.
    pub(crate) fn takes(&self, rowset: RowsetNo) -> bool
        ensures { result ≡ any_of (eqb rowset.0) self.now.taken.now }
    {
        self.taken.binary_search(&rowset.0).is_ok()
    }

    // Whether the epoch shows every one of them.
    pub(crate) fn shows_taken(&self) -> bool
        ensures { result ≡ all_of (λ x. is_shown self.now.state.inner.now.epoch (self.now.table.0 ∷ x ∷ []) (rowsets_of self.now.state.inner.now.rowsets)) self.now.taken.now }
    {
        let inner = self.state.inner;
        self.taken.iter().all(|x| {
            let pair = RowsetIds {
                table: self.table,
                rowset: RowsetNo(*x),
            };
            inner.rowsets.shows(pair, inner.epoch)
        })
    }

    // Their `D` lines.
    pub(crate) fn put_taken(&self, lines: &mut Lines<LINE_BYTES>)
        requires { length lines.old + longest_line * length self.now.taken.now ≤ most_operations * longest_line }
        ensures { lines.new ≡ lines.old ++ texts_of (map (delete_rowset self.now.table.0) self.now.taken.now) }
    {
        for rowset in self.taken {
            lines.put_line(EpochOp::DeleteRowSet(self.table, RowsetNo(*rowset)));
        }
    }
}
