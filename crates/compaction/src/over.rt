// The vectors over taken rowsets.
ghost use Rattle.std.specs.Prelude.{◌≡◌, ◌++◌, map, ◌+◌, ◌*◌, ◌≤◌, length};
ghost use Rattle.lists.specs.Keyed.{keep};
ghost use Rattle.ids.specs.Limits.{most_operations, longest_line};
ghost use Rattle.frames.specs.Frames.{texts_of};
ghost use Rattle.version_state.specs.State.{state_of, vectors_at};
ghost use Rattle.table.specs.Made.{is_over, delete_vector_of};

use crate::Compaction;
use frames::Lines;
use ids::limits::LINE_BYTES;
use manifest::operation::EpochOp;
use snapshot::held::HeldColumns;

impl Compaction<'_> {
    // How many the epoch shows.
    pub(crate) fn count_over(&self) -> usize
        ensures { result ≡ length (keep (is_over self.now.table.0 self.now.taken.now) (vectors_at self.now.state.inner.now.epoch (state_of self.now.state.inner.now))) }
    {
        self.state
            .inner
            .vectors
            .shown_of(self.table, self.state.inner.epoch)
            .filter(|v| self.takes(v.ids.rowset))
            .count()
    }

    // Their `W` lines. The filter is written again: its type has no name that a method could answer.
    pub(crate) fn put_over(&self, lines: &mut Lines<LINE_BYTES>)
        requires room { length lines.old + longest_line * length (keep (is_over self.now.table.0 self.now.taken.now) (vectors_at self.now.state.inner.now.epoch (state_of self.now.state.inner.now))) ≤ most_operations * longest_line }
        ensures added { lines.new ≡ lines.old ++ texts_of (map delete_vector_of (keep (is_over self.now.table.0 self.now.taken.now) (vectors_at self.now.state.inner.now.epoch (state_of self.now.state.inner.now)))) }
        ensures short { length lines.new ≤ length lines.old + longest_line * length (keep (is_over self.now.table.0 self.now.taken.now) (vectors_at self.now.state.inner.now.epoch (state_of self.now.state.inner.now))) }
    {
        let over = self
            .state
            .inner
            .vectors
            .shown_of(self.table, self.state.inner.epoch)
            .filter(|v| self.takes(v.ids.rowset));
        for v in over {
            lines.put_line(EpochOp::DeleteDV(v.ids.table, v.ids.rowset, v.ids.vector));
        }
    }
}
