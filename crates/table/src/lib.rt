// Commits that a call makes itself from what is shown now: create and drop of tables. The definitions of a compaction stand here too; its code is
// in `compaction`.
#![tactic(auto)]

ghost use Rattle.ids.specs.Names.{name_of};
ghost use Rattle.ids.specs.Verdicts.{judged};
ghost use Rattle.version_state.specs.State.{state_of};
ghost use Rattle.table.specs.Create.{created_by, create_rules};
ghost use Rattle.table.specs.Drop.{dropped_by, drop_rules};
ghost use Rattle.table.specs.Says.{MadeIs};
ghost use Rattle.table.specs.Laws.{MadeLaws};

use dropped::Dropped;
use frames::Lines;
use ids::TableNo;
use ids::limits::{
    LARGEST_32, LAST_EPOCH, LINE_BYTES, LONGEST_LINE, LONGEST_MANIFEST, MOST_TABLES,
};
use ids::name::Name;
use ids::refusal::Refusal;
use text::ByteClasses;
use version_state::sound::SoundState;

mod dropped;

// The bytes of `!`, `B` and `E` with their newlines, which stand around a commit's lines.
pub const APPEND_BYTES: usize = 6;

// Where a call's own rules pass, the one commit accepts what the call has made.
pub fn holds()
    ensures { MadeLaws }
{}

// Internal, as is `drop`. Create of a table with the next id, for an append into `room` bytes. In both `lines` has room for the lines, which take the
// place of others.
pub fn create(
    state: SoundState<'_>,
    shape: u32,
    name: Name,
    room: usize,
    lines: &mut Lines<LONGEST_LINE>,
) -> Result<(), Refusal>
    ensures { MadeIs (judged (create_rules (state_of state.entry.inner.now) shape (name_of name) room)) (created_by (state_of state.entry.inner.now) shape (name_of name)) result lines.new }
{
    let inner = state.inner;
    if !ByteClasses::new().is_name(name.as_slice()) {
        return Err(Refusal::Malformed(0));
    }
    if inner.tables.taken(name) {
        return Err(Refusal::NameTaken(0));
    }
    if LAST_EPOCH <= inner.epoch {
        return Err(Refusal::EpochsFull);
    }
    if MOST_TABLES <= inner.tables.count {
        return Err(Refusal::TablesFull(0));
    }
    let next = inner.next.table;
    lines.clear();
    lines.put_line(rewrite::create_change(next, shape, name));
    let size = lines.as_slice().len() + APPEND_BYTES;
    if LONGEST_MANIFEST < inner.manifest + size {
        return Err(Refusal::ManifestFull);
    }
    if LARGEST_32 <= next.0 {
        return Err(Refusal::IdsUsedUp);
    }
    if room < size {
        return Err(Refusal::OutputTooShort);
    }
    Ok(())
}

// Drop of a table, for an append into `room` bytes.
pub fn drop(
    state: SoundState<'_>,
    table: TableNo,
    room: usize,
    lines: &mut Lines<LINE_BYTES>,
) -> Result<(), Refusal>
    ensures { MadeIs (judged (drop_rules (state_of state.entry.inner.now) table.0 room)) (dropped_by (state_of state.entry.inner.now) table.0) result lines.new }
{
    let inner = state.inner;
    if !table.is_id() {
        return Err(Refusal::Malformed(0));
    }
    if !inner.tables.holds(table) {
        return Err(Refusal::TableNotLive(0));
    }
    if LAST_EPOCH <= inner.epoch {
        return Err(Refusal::EpochsFull);
    }
    Dropped { state, table }.put(lines);
    let size = lines.as_slice().len() + APPEND_BYTES;
    if LONGEST_MANIFEST < inner.manifest + size {
        return Err(Refusal::ManifestFull);
    }
    if room < size {
        return Err(Refusal::OutputTooShort);
    }
    Ok(())
}
