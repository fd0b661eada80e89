// A compaction's commit: what is judged of it, and the lines that it commits.
#![tactic(auto)]

ghost use Rattle.std.specs.Prelude.{◌≡◌, true, ◌&&◌, ◌++◌, map, ◌+◌, ◌*◌, ◌≤◌, ltb, length};
ghost use Rattle.lists.specs.Keyed.{all_of, ascending};
ghost use Rattle.ids.specs.Ids.{is_id32};
ghost use Rattle.ids.specs.Limits.{most_operations, longest_line};
ghost use Rattle.ids.specs.Verdicts.{judged};
ghost use Rattle.manifest.specs.Operations.{add_rowset};
ghost use Rattle.frames.specs.Frames.{texts_of};
ghost use Rattle.version_state.specs.State.{state_of};
ghost use Rattle.table.specs.Made.{by_number};
ghost use Rattle.table.specs.Compact.{compacted_by, compact_state, compact_last, compact_rules};
ghost use Rattle.table.specs.Says.{MadeIs};
ghost use Rattle.compaction.specs.New.{new_of};

use frames::Lines;
use ids::limits::{LAST_EPOCH, LINE_BYTES, LONGEST_MANIFEST, MOST_HELD, MOST_OPERATIONS};
use ids::refusal::Refusal;
use ids::{RowsetNo, TableNo};
use manifest::operation::EpochOp;
use snapshot::held::HeldColumns;
use snapshot::rowsets::RowsetIds;
use version_state::sound::SoundState;

pub mod over;
pub mod taken;

// Asked of the parts before they make a `Compaction`: a type for them without its facts would be no plainer.
fn valid(table: TableNo, new: Option<RowsetNo>, taken: &[u32]) -> bool
    ensures { result ≡ is_id32 table.0 && (all_of is_id32 (new_of new) && (all_of is_id32 taken.now && ascending by_number taken.now)) }
{
    table.is_id() && new.is_none_or(|r| r.is_id()) && taken::rising(taken)
}

// A compaction: every id is one, and the taken ones rise.
#[derive(Drop)]
struct Compaction<'a> {
    state: SoundState<'a>,
    table: TableNo,
    new: Option<RowsetNo>,
    taken: &'a [u32],
    ghost id: { is_id32 table.0 ≡ true },
    ghost new_id: { all_of is_id32 (new_of new) ≡ true },
    ghost taken_ids: { all_of is_id32 taken.now ≡ true },
    ghost rises: { ascending by_number taken.now ≡ true },
}

impl Compaction<'_> {
    // More operations than a commit may have: 6.
    fn is_long(&self) -> bool
        ensures { result ≡ ltb most_operations (length (compacted_by (state_of self.now.state.inner.now) self.now.table.0 (new_of self.now.new) self.now.taken.now)) }
    {
        // A difference, since a sum with the length of any slice may not fit.
        let left = MOST_OPERATIONS - usize::from(self.new.is_some()) - self.count_over();
        left < self.taken.len()
    }

    // 11, 12, 14, 16, 20, 22.
    fn judge(&self) -> Result<(), Refusal>
        ensures { result ≡ judged (compact_state (state_of self.now.state.inner.now) self.now.table.0 (new_of self.now.new) self.now.taken.now) }
    {
        let inner = self.state.inner;
        let table = self.table;
        if !inner.tables.holds(table) {
            return Err(Refusal::TableNotLive(0));
        }
        if !self.shows_taken() {
            return Err(Refusal::PairNotShown(0));
        }
        if self.new.is_some_and(|r| inner.next.rowset <= r) {
            return Err(Refusal::IdNotDrawn(0));
        }
        if self
            .new
            .is_some_and(|rowset| inner.rowsets.holds(RowsetIds { table, rowset }))
        {
            return Err(Refusal::StillHeld(0));
        }
        if LAST_EPOCH <= inner.epoch {
            return Err(Refusal::EpochsFull);
        }
        if self.new.is_some_and(|_| MOST_HELD <= inner.rowsets.count) {
            return Err(Refusal::HeldFull(0));
        }
        Ok(())
    }

    // 23, 27, 9, for an append of `size` bytes and a lent buffer of `room`.
    fn judge_append(&self, size: usize, room: usize) -> Result<(), Refusal>
        ensures { result ≡ judged (compact_last (state_of self.now.state.inner.now) self.now.table.0 size room) }
    {
        if LONGEST_MANIFEST - self.state.inner.manifest < size {
            return Err(Refusal::ManifestFull);
        }
        if !self.state.inner.tables.is_locked(self.table) {
            return Err(Refusal::LockNotHeld);
        }
        if room < size {
            return Err(Refusal::OutputTooShort);
        }
        Ok(())
    }

    // The `A` line of the new rowset, if there is one.
    fn put_new(&self, lines: &mut Lines<LINE_BYTES>)
        requires { length lines.old + longest_line * length (new_of self.now.new) ≤ most_operations * longest_line }
        ensures added { lines.new ≡ lines.old ++ texts_of (map (add_rowset self.now.table.0) (new_of self.now.new)) }
        ensures short { length lines.new ≤ length lines.old + longest_line * length (new_of self.now.new) }
    {
        if let Some(r) = self.new {
            lines.put_line(EpochOp::AddRowSet(self.table, r));
        }
    }

    // The lines, in the place of others: `A` for the new rowset, `W` for the vectors over the taken rowsets, `D` for these.
    fn put(&self, lines: &mut Lines<LINE_BYTES>)
        requires { length (compacted_by (state_of self.now.state.inner.now) self.now.table.0 (new_of self.now.new) self.now.taken.now) ≤ most_operations }
        ensures { lines.new ≡ texts_of (compacted_by (state_of self.now.state.inner.now) self.now.table.0 (new_of self.now.new) self.now.taken.now) }
    {
        lines.clear();
        self.put_new(lines);
        self.put_over(lines);
        self.put_taken(lines);
    }
}

// Internal: `lines` has room for the lines of any commit. A compaction that puts the new rowset in the place of the taken ones, lent a
// buffer of `room` for the append. Its parts come one by one, as the C interface lends them.
pub fn compact(
    state: SoundState<'_>,
    table: TableNo,
    new: Option<RowsetNo>,
    taken: &[u32],
    room: usize,
    lines: &mut Lines<LINE_BYTES>,
) -> Result<(), Refusal>
    ensures { MadeIs (judged (compact_rules (state_of state.entry.inner.now) table.0 (new_of new) taken.now room)) (compacted_by (state_of state.entry.inner.now) table.0 (new_of new) taken.now) result lines.new }
{
    if !valid(table, new, taken) {
        return Err(Refusal::Malformed(0));
    }
    let compaction = Compaction {
        state,
        table,
        new,
        taken,
    };
    if compaction.is_long() {
        return Err(Refusal::TooManyOperations(0));
    }
    compaction.judge()?;
    compaction.put(lines);
    compaction.judge_append(lines.as_slice().len() + table::APPEND_BYTES, room)
}
