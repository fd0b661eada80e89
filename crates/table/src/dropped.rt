// A drop, and the lines that it commits. All here is internal.
ghost use Rattle.std.specs.Prelude.{◌≡◌, true, ◌++◌, map, ◌+◌, ◌*◌, ◌≤◌, length};
ghost use Rattle.lists.specs.Keyed.{keep};
ghost use Rattle.ids.specs.Ids.{is_id32};
ghost use Rattle.ids.specs.Limits.{most_held, most_operations, longest_line};
ghost use Rattle.frames.specs.Frames.{texts_of};
ghost use Rattle.version_state.specs.State.{state_of, pairs_at, vectors_at};
ghost use Rattle.table.specs.Made.{of_table, delete_rowset_of, delete_vector_of};
ghost use Rattle.table.specs.Drop.{dropped_by};

use frames::Lines;
use ids::TableNo;
use ids::limits::LINE_BYTES;
use manifest::operation::EpochOp;
use snapshot::held::HeldColumns;
use version_state::sound::SoundState;

// The table that a drop is about, and the state that it is dropped from.
#[derive(Clone, Copy)]
pub(crate) struct Dropped<'a> {
    pub(crate) state: SoundState<'a>,
    pub(crate) table: TableNo,
    ghost id: { is_id32 table.0 ≡ true },
}

impl Dropped<'_> {
    // The `W` lines of the table's vectors that are shown now. Its own loop: a shared one, handed the operations, would want a clause on how long
    // their lines are, and be no plainer.
    fn put_vectors(&self, lines: &mut Lines<LINE_BYTES>)
        requires room { length lines.old + longest_line * most_held ≤ most_operations * longest_line }
        ensures { (lines.new ≡ lines.old ++ texts_of (map delete_vector_of (keep (of_table self.now.table.0) (vectors_at self.now.state.inner.now.epoch (state_of self.now.state.inner.now))))) × (length lines.new ≤ length lines.old + longest_line * most_held) }
    {
        let inner = self.state.inner;
        for v in inner.vectors.shown_of(self.table, inner.epoch) {
            lines.put_line(EpochOp::DeleteDV(v.ids.table, v.ids.rowset, v.ids.vector));
        }
    }

    // The `D` lines of the table's rowsets that are shown now. Its own loop, as above: a shared one would be no plainer.
    fn put_pairs(&self, lines: &mut Lines<LINE_BYTES>)
        requires room { length lines.old + longest_line * most_held ≤ most_operations * longest_line }
        ensures { (lines.new ≡ lines.old ++ texts_of (map delete_rowset_of (keep (of_table self.now.table.0) (pairs_at self.now.state.inner.now.epoch (state_of self.now.state.inner.now))))) × (length lines.new ≤ length lines.old + longest_line * most_held) }
    {
        let inner = self.state.inner;
        for r in inner.rowsets.shown_of(self.table, inner.epoch) {
            lines.put_line(EpochOp::DeleteRowSet(r.ids.table, r.ids.rowset));
        }
    }

    // The lines, in the place of others: `X`, then `W` for the vectors and `D` for the rowsets.
    pub(crate) fn put(&self, lines: &mut Lines<LINE_BYTES>)
        ensures { lines.new ≡ texts_of (dropped_by (state_of self.now.state.inner.now) self.now.table.0) }
    {
        lines.clear();
        lines.put_line(EpochOp::DropTable(self.table));
        self.put_vectors(lines);
        self.put_pairs(lines);
    }
}
