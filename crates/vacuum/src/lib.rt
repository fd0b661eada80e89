// Vacuum: deletions that no pin keeps are listed and let go.
#![tactic(auto)]

ghost use Rattle.std.specs.Prelude.{◌≡◌, false, ◌≤◌, map, length};
ghost use Rattle.lists.specs.Keyed.{keep, arranged};
ghost use Rattle.lists.specs.Written.{over};
ghost use Rattle.ids.specs.Limits.{most_held};
ghost use Rattle.snapshot.specs.Entries.{gone_by, by_deletion};
ghost use Rattle.snapshot.specs.Views.{rowsets_of};
ghost use Rattle.version_state.specs.State.{state_of, Fit, Hands};
ghost use Rattle.version_state.specs.Sound.{bad_inner};
ghost use Rattle.vacuum.specs.LetGo.{deletion_of, vacuumed};
ghost use Rattle.vacuum.specs.Says.{VacuumIs};
ghost use Rattle.vacuum.specs.Laws.{VacuumLaws};

use arrayvec::ArrayVec;
use ids::limits::MOST_HELD;
use ids::refusal::Refusal;
use pins::PinBook;
use snapshot::held::HeldColumns;
use snapshot::rowsets::Rowsets;
use version_state::VersionManagerInner;

// The laws of an accepted vacuum.
pub fn holds()
    ensures { VacuumLaws }
{}

// Internal, as is all that follows, where the count is within the columns, which the structs of the C interface cannot say: how many are
// gone by the epoch.
pub fn counted(rowsets: &Rowsets, epoch: u32) -> usize
    requires { rowsets.now.count ≤ most_held }
    ensures { result ≡ length (keep (gone_by epoch) (rowsets_of rowsets.now)) }
{
    rowsets.gone(epoch).count()
}

// The deletions up to an epoch, each as its epoch, table and rowset, in the order of the vacuum's list. The count is within the
// columns, as above, which the C interface cannot say.
fn listed(rowsets: &Rowsets, epoch: u32) -> ArrayVec<(u32, u32, u32), MOST_HELD>
    requires { rowsets.now.count ≤ most_held }
    ensures { result.items ≡ map deletion_of (arranged by_deletion (keep (gone_by epoch) (rowsets_of rowsets.now))) }
{
    let mut gone = ArrayVec::new();
    for rowset in rowsets.gone(epoch) {
        gone.push((rowset.deleted, rowset.ids.table.0, rowset.ids.rowset.0));
    }
    gone.sort_unstable();
    gone
}

// Their ids, to the front of the slices.
fn write(gone: &[(u32, u32, u32)], tables: &mut [u32], rowsets: &mut [u32])
    requires tables { length gone.now ≤ length tables.old }
    requires rowsets { length gone.now ≤ length rowsets.old }
    ensures tables { tables.new ≡ over (map (λ x. x.1) gone.now) tables.old }
    ensures rowsets { rowsets.new ≡ over (map (λ x. x.2) gone.now) rowsets.old }
{
    for (i, deletion) in gone.iter().enumerate() {
        tables[i] = deletion.1;
        rowsets[i] = deletion.2;
    }
}

// What is left without the deletions up to an epoch. The structs of the C interface cannot say that their counts are within the columns.
pub fn let_go(inner: &mut VersionManagerInner, epoch: u32)
    requires { Fit inner.old }
    ensures { Hands inner.new (vacuumed epoch (state_of inner.old)) }
{
    inner.rowsets.let_go(epoch);
    inner.vectors.let_go(epoch);
}

// The state has passed 29. It alters the state, so that the type for one that has passed 29 would be no plainer. Answers how many
// deletions are listed, in slices that C lends one by one.
pub fn vacuum(
    inner: &mut VersionManagerInner,
    book: &PinBook,
    tables: &mut [u32],
    rowsets: &mut [u32],
) -> Result<usize, Refusal>
    requires { bad_inner inner.old ≡ false }
    ensures { VacuumIs (state_of inner.old) book.now tables.old rowsets.old result inner.new tables.new rowsets.new }
{
    if book.bad(inner.epoch) {
        return Err(Refusal::BadPinBook);
    }
    let bound = book.bound(inner.epoch);
    let gone = listed(&inner.rowsets, bound);
    let count = gone.len();
    if tables.len() < count || rowsets.len() < count {
        return Err(Refusal::OutputTooShort);
    }
    write(gone.as_slice(), tables, rowsets);
    let_go(inner, bound);
    Ok(count)
}
