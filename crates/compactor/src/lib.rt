// Selection: which of a table's rowsets a compaction takes, by their sizes.
#![tactic(auto)]

ghost use Rattle.std.specs.Prelude.{◌≡◌, true, ◌≤◌, [], ◌∷◌, map, length, take};
ghost use Rattle.ids.specs.Ids.{is_id32};
ghost use Rattle.version_state.specs.State.{state_of};
ghost use Rattle.compactor.specs.Selection.{taken, sized, rowsets_now, any_over, compacted};
ghost use Rattle.compactor.specs.Says.{SelectIs};
ghost use Rattle.compactor.specs.Laws.{TakenLaws};

use arrayvec::ArrayVec;
use ids::limits::MOST_HELD;
use ids::refusal::Refusal;
use ids::{RowsetNo, TableNo};
use snapshot::held::HeldColumns;
use version_state::sound::SoundState;

// The laws of what is taken.
pub fn holds()
    ensures { TakenLaws }
{}

// Internal, as is all that follows. The table's rowsets that are shown now, gathered in one pass over its run.
fn rowsets_now(state: SoundState<'_>, table: TableNo) -> ArrayVec<u32, MOST_HELD>
    requires { is_id32 table.0 ≡ true }
    ensures { result.items ≡ rowsets_now table.0 (state_of state.entry.inner.now) }
{
    let inner = state.inner;
    let mut rowsets = ArrayVec::new();
    let shown = inner.rowsets.shown_of(table, inner.epoch);
    for rowset in shown {
        rowsets.push(rowset.ids.rowset.0);
    }
    rowsets
}

// Of the rowsets that have a size each, those that are taken, moved to the front; answers how many they are. What is left of the target is counted
// down, so that no sum of sizes can overflow.
fn take(rowsets: &mut [u32], sizes: &[u64], target: u64) -> usize
    requires { length sizes.now ≤ length rowsets.old }
    ensures told { take result rowsets.new ≡ map (λ x. x.rowset) (taken target (sized rowsets.old sizes.now)) }
    ensures inside { result ≤ length rowsets.old }
    ensures size { length rowsets.new ≡ length rowsets.old }
{
    let mut left = target;
    let mut count = 0;
    for (i, size) in sizes.iter().enumerate() {
        if *size <= left {
            rowsets[count] = rowsets[i];
            left -= *size;
            count += 1;
        }
    }
    count
}

// Whether a vector that is shown now lies over the rowset.
fn any_over(state: SoundState<'_>, table: TableNo, rowset: RowsetNo) -> bool
    requires { is_id32 table.0 ≡ true }
    ensures { result ≡ any_over table.0 (rowset.0 ∷ []) (state_of state.entry.inner.now) }
{
    let inner = state.inner;
    inner
        .vectors
        .shown_of(table, inner.epoch)
        .any(|v| v.ids.rowset == rowset)
}

// One rowset alone, with no vector over it, is not enough for a compaction.
fn compacted<'a>(state: SoundState<'_>, table: TableNo, taken: &'a [u32]) -> &'a [u32]
    requires { is_id32 table.0 ≡ true }
    ensures { result.now ≡ compacted table.0 taken.now (state_of state.entry.inner.now) }
{
    match taken {
        [rowset] if !any_over(state, table, RowsetNo(*rowset)) => &[],
        _ => taken,
    }
}

// Answers how many rowsets are to be compacted. The slices come one by one, as C lends them.
pub fn select(
    state: SoundState<'_>,
    table: TableNo,
    target: u64,
    sizes: &[u64],
    out: &mut [u32],
) -> Result<usize, Refusal>
    ensures { SelectIs (state_of state.entry.inner.now) table.0 target sizes.now out.old result out.new }
{
    let inner = state.inner;
    if !table.is_id() {
        return Err(Refusal::Malformed(0));
    }
    let mut rowsets = rowsets_now(state, table);
    if sizes.len() != rowsets.len() {
        return Err(Refusal::WrongCount);
    }
    if !inner.tables.holds(table) {
        return Err(Refusal::TableNotLive(0));
    }
    let taken = take(rowsets.as_mut_slice(), sizes, target);
    let chosen = compacted(state, table, &rowsets.as_slice()[..taken]);
    let count = chosen.len();
    if out.len() < count {
        return Err(Refusal::OutputTooShort);
    }
    out[..count].copy_from_slice(chosen);
    Ok(count)
}
