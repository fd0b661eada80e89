// Show: the tables of the current epoch, and the pairs and vectors of the current or a pinned one, into lent slices.
#![tactic(auto)]

ghost use Rattle.std.specs.Prelude.{◌≡◌, [], ◌∷◌, ◌≤◌, ltb, map, length};
ghost use Rattle.ids.specs.Limits.{most_held};
ghost use Rattle.ids.specs.Names.{longest_name};
ghost use Rattle.ids.specs.declared.refusal.Refusal.TheVariants.{BadPinBook, EpochNotPinned, OutputTooShort};
ghost use Rattle.ids.specs.Verdicts.{◌⇒◌, judged};
ghost use Rattle.pins.specs.Book.{bad_book};
ghost use Rattle.snapshot.specs.Entries.{shown};
ghost use Rattle.version_state.specs.State.{state_of};
ghost use Rattle.show.specs.Names.{padded};
ghost use Rattle.show.specs.Says.{ShowPairsIs, ShowVectorsIs, ShowTablesIs};

use arrayvec::ArrayVec;
use ids::limits::{LONGEST_NAME, MOST_HELD};
use ids::refusal::Refusal;
use pins::PinBook;
use snapshot::held::HeldColumns;
use version_state::sound::SoundState;

// Refusals 28 and 24, in this order.
fn judge(current: u32, book: &PinBook, unseen: bool) -> Result<(), Refusal>
    ensures { result ≡ judged ((bad_book current book.now ⇒ BadPinBook) ∷ (unseen ⇒ EpochNotPinned) ∷ []) }
{
    if book.bad(current) {
        return Err(Refusal::BadPinBook);
    }
    if unseen {
        return Err(Refusal::EpochNotPinned);
    }
    Ok(())
}

// Refusal 9, which comes after these.
fn fit(count: usize, room: usize) -> Result<(), Refusal>
    ensures { result ≡ judged ((ltb room count ⇒ OutputTooShort) ∷ []) }
{
    if room < count {
        return Err(Refusal::OutputTooShort);
    }
    Ok(())
}

// The ids of what the epoch shows, gathered in one pass, since the slices are written only where all have room. The count is within the columns,
// which the structs of the C interface cannot say.
fn gathered<H: HeldColumns>(held: &H, epoch: u32) -> ArrayVec<H::Ids, MOST_HELD>
where
    H::Ids: Default,
    requires { H.count held.now ≤ most_held }
    ensures { map H.Ids.numbers result.items ≡ shown epoch (H.entries held.now) }
{
    let mut ids = ArrayVec::new();
    for one in held.shown(epoch) {
        ids.push(one.ids);
    }
    ids
}

// Internal, as are all that follow. Each answers how many are shown, in slices that C lends one by one.
pub fn show_pairs(
    state: SoundState<'_>,
    book: &PinBook,
    epoch: u32,
    tables: &mut [u32],
    rowsets: &mut [u32],
) -> Result<usize, Refusal>
    ensures { ShowPairsIs (state_of state.entry.inner.now) book.now epoch tables.old rowsets.old result tables.new rowsets.new }
{
    let inner = state.inner;
    let unseen = !book.may_show(inner.epoch, epoch);
    judge(inner.epoch, book, unseen)?;
    let shown = gathered(&inner.rowsets, epoch);
    let count = shown.len();
    let room = tables.len().min(rowsets.len());
    fit(count, room)?;
    for (i, pair) in shown.as_slice().iter().enumerate() {
        tables[i] = pair.table.0;
        rowsets[i] = pair.rowset.0;
    }
    Ok(count)
}

// With a slice more than pairs, as C lends them.
pub fn show_vectors(
    state: SoundState<'_>,
    book: &PinBook,
    epoch: u32,
    tables: &mut [u32],
    rowsets: &mut [u32],
    vectors: &mut [u64],
) -> Result<usize, Refusal>
    ensures { ShowVectorsIs (state_of state.entry.inner.now) book.now epoch tables.old rowsets.old vectors.old result tables.new rowsets.new vectors.new }
{
    let inner = state.inner;
    let unseen = !book.may_show(inner.epoch, epoch);
    judge(inner.epoch, book, unseen)?;
    let shown = gathered(&inner.vectors, epoch);
    let count = shown.len();
    let room = tables.len().min(rowsets.len()).min(vectors.len());
    fit(count, room)?;
    for (i, vector) in shown.as_slice().iter().enumerate() {
        tables[i] = vector.table.0;
        rowsets[i] = vector.rowset.0;
        vectors[i] = vector.vector.0;
    }
    Ok(count)
}

// A name's bytes, and zeros after them.
fn write_name(name: &[u8], out: &mut [u8])
    requires { (length name.now ≤ longest_name) × (length out.old ≡ longest_name) }
    ensures { out.new ≡ padded name.now }
{
    out.fill(0);
    out[..name.len()].copy_from_slice(name);
}

// The slices are as C lends them. By place: each table goes to the same place of four slices, and `Tables` has no iterator; one for this loop would
// be no plainer.
pub fn show_tables(
    state: SoundState<'_>,
    book: &PinBook,
    epoch: u32,
    ids: &mut [u32],
    shapes: &mut [u32],
    lengths: &mut [u32],
    names: &mut [u8],
) -> Result<usize, Refusal>
    ensures { ShowTablesIs (state_of state.entry.inner.now) book.now epoch ids.old shapes.old lengths.old names.old result ids.new shapes.new lengths.new names.new }
{
    let inner = state.inner;
    let unseen = epoch != inner.epoch;
    judge(inner.epoch, book, unseen)?;
    let count = inner.tables.count;
    let numbers = ids.len().min(shapes.len()).min(lengths.len());
    let room = numbers.min(names.len() / LONGEST_NAME);
    fit(count, room)?;
    for i in 0..count {
        let table = inner.tables.get(i);
        let name = inner.tables.name(i);
        ids[i] = table.table.0;
        shapes[i] = table.shape;
        lengths[i] = name.len() as u32;
        let at = LONGEST_NAME * i;
        write_name(name, &mut names[at..at + LONGEST_NAME]);
    }
    Ok(count)
}
