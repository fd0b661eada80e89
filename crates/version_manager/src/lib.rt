// The version manager: every public method. 29 is judged here; what works below is given a state that passed.
#![tactic(auto)]

ghost use Rattle.std.specs.Prelude.{◌≡◌, false, length, Err};
ghost use Rattle.ids.specs.Names.{name_of};
ghost use Rattle.manifest.specs.Operations.{batch_of};
ghost use Rattle.commit.specs.Lent.{operations_in};
ghost use Rattle.compaction.specs.New.{new_of};
ghost use Rattle.version_manager.specs.Managers.{bad_manager, Judged, Settled, FreshSays};
ghost use Rattle.version_manager.specs.Draw.{DrawRowsetSays, DrawVectorSays};
ghost use Rattle.version_manager.specs.Group.{GroupSays};
ghost use Rattle.version_manager.specs.Commit.{CommitSays};
ghost use Rattle.version_manager.specs.Made.{AppendsMade};
ghost use Rattle.version_manager.specs.Create.{CreateSays};
ghost use Rattle.version_manager.specs.Drop.{DropSays};
ghost use Rattle.version_manager.specs.Compact.{CompactSays};
ghost use Rattle.version_manager.specs.Checkpoint.{CheckpointSays};
ghost use Rattle.version_manager.specs.Vacuum.{VacuumSays};
ghost use Rattle.version_manager.specs.Report.{ReportSays};
ghost use Rattle.version_manager.specs.Show.{ShowTablesSays, ShowPairsSays, ShowVectorsSays};
ghost use Rattle.version_manager.specs.Lock.{RelockSays, LockSays, UnlockSays};
ghost use Rattle.version_manager.specs.Select.{SelectSays};
ghost use Rattle.version_manager.specs.Laws.{DrawLaws, CheckpointLaws, CommitLaws, ReportLaws};
ghost use Rattle.version_manager.specs.TableLaws.{TableLaws};
ghost use Rattle.version_manager.specs.CompactLaws.{CompactLaws};

use frames::Lines;
use ids::limits::{LARGEST_32, LARGEST_64, MOST_OPERATIONS};
use ids::name::Name;
use ids::refusal::Refusal;
use ids::{RowsetNo, TableNo, VectorNo};
use manifest::operation::Batch;
use pins::PinBook;
use transaction::Handles;
use version_state::VersionManagerInner;
use version_state::sound::SoundState;

#[repr(C)]
#[derive(Clone, Copy)]
pub struct VersionManager {
    pub inner: VersionManagerInner,
    // The whole state before the last commit, for a report of a short write; without meaning where `append` is 0.
    pub kept: VersionManagerInner,
    // How many bytes that commit appended. Any other accepted call that hands a manager back makes it 0: nothing is kept. C reads the struct, so that
    // this is no Option.
    pub append: usize,
}

// A manager, and the book that goes with it.
#[repr(C)]
#[derive(Drop)]
pub struct Opened {
    pub manager: VersionManager,
    pub book: PinBook,
}

// The manager that a call hands back, and what it answers. The C interface has such a struct of its own, in numbers.
#[derive(Drop)]
pub struct Answered<T> {
    pub manager: VersionManager,
    pub answer: Result<T, Refusal>,
}

// How many vectors there are, and the first one's id; the others' ids follow it.
#[derive(Clone, Copy)]
pub struct NewVectors {
    pub count: usize,
    pub first: VectorNo,
}

// The new epoch, and how many bytes there are to append.
#[derive(Clone, Copy)]
pub struct Appended {
    pub epoch: u32,
    pub length: usize,
}

// The new table's id, the new epoch, and how many bytes there are to append.
#[derive(Clone, Copy)]
pub struct NewTable {
    pub table: TableNo,
    pub epoch: u32,
    pub length: usize,
}

// The epoch that is current again, and the manifest's length.
#[derive(Clone, Copy)]
pub struct TakenBack {
    pub epoch: u32,
    pub manifest: usize,
}

pub type DrawnRowset = Answered<RowsetNo>;

pub type DrawnVector = Answered<VectorNo>;

pub type Grouped = Answered<NewVectors>;

pub type Committed = Answered<Appended>;

pub type Created = Answered<NewTable>;
// How many deletions are listed.
pub type Vacuumed = Answered<usize>;
// How many bytes the rewritten manifest has.
pub type Checkpointed = Answered<usize>;

pub type Reported = Answered<TakenBack>;
// After a lock was taken or given back.
pub type Locked = Answered<()>;

// Every manager that is handed back is made here, but those of commits: nothing is kept.
pub fn handed(inner: VersionManagerInner) -> VersionManager
    ensures { (result.inner ≡ inner) × (result.append ≡ 0) }
{
    VersionManager {
        inner,
        kept: inner,
        append: 0,
    }
}

// And here those of commits.
fn followed(inner: VersionManagerInner, kept: VersionManagerInner, append: usize) -> VersionManager
    ensures { (result.inner ≡ inner) × (result.kept ≡ kept) × (result.append ≡ append) }
{
    VersionManager {
        inner,
        kept,
        append,
    }
}

// What fresh, draw, group, a checkpoint, a commit, a report, create, drop and a compaction hand out passes 29.
pub fn holds()
    ensures { DrawLaws × CheckpointLaws × CommitLaws × ReportLaws × TableLaws × CompactLaws }
{}

// The C interface hands a manager over by value and takes one back, and so does each method, which judges 29 first.
impl VersionManager {
    pub fn fresh() -> Opened
        ensures { FreshSays result }
    {
        Opened {
            manager: handed(VersionManagerInner::fresh()),
            book: PinBook::none(),
        }
    }

    // The specification's 29, of any value whatsoever.
    pub fn bad(self) -> bool
        ensures { result ≡ bad_manager self }
    {
        self.inner.bad() || self.append != 0 && self.kept.bad_with(self.append)
    }

    // Refusal 29: the state that has passed it is lent. As in `bad`, but by what is lent: `bad` goes by value and would copy the manager once more,
    // measured as 2,100 of a small show's 7,100 instructions.
    fn judge(&self) -> Result<SoundState<'_>, Refusal>
        ensures { Judged self.now result }
    {
        let append = self.append;
        if self.inner.bad() || append != 0 && self.kept.bad_with(append) {
            return Err(Refusal::BadManager);
        }
        Ok(SoundState { inner: &self.inner })
    }

    fn refused<T>(&self, refusal: Refusal) -> Answered<T>
        ensures { (result.answer ≡ Err refusal) × (result.manager ≡ self.now) }
    {
        Answered {
            manager: *self,
            answer: Err(refusal),
        }
    }

    // What work on a copy of the state answered: a refusal hands back the manager as it was. The manager is lent here and to what appends,
    // since by value each would copy it whole: a tenth of a small commit, as measured.
    fn settled<T>(&self, inner: VersionManagerInner, answer: Result<T, Refusal>) -> Answered<T>
        ensures { Settled self.now inner answer result }
    {
        match answer {
            Ok(x) => Answered {
                manager: handed(inner),
                answer: Ok(x),
            },
            Err(refusal) => self.refused(refusal),
        }
    }

    // The two draws differ in the field and its width: a trait over both would be longer, and no plainer.
    pub fn draw_rowset(self) -> DrawnRowset
        ensures { DrawRowsetSays self result }
    {
        if self.bad() {
            return self.refused(Refusal::BadManager);
        }
        let id = self.inner.next.rowset;
        if LARGEST_32 <= id.0 {
            return self.refused(Refusal::IdsUsedUp);
        }
        let mut inner = self.inner;
        inner.next.rowset = RowsetNo(id.0 + 1);
        self.settled(inner, Ok(id))
    }

    // With its own field and width, as above: a trait would be no plainer.
    pub fn draw_vector(self) -> DrawnVector
        ensures { DrawVectorSays self result }
    {
        if self.bad() {
            return self.refused(Refusal::BadManager);
        }
        let id = self.inner.next.vector;
        if LARGEST_64 <= id.0 {
            return self.refused(Refusal::IdsUsedUp);
        }
        let mut inner = self.inner;
        inner.next.vector = VectorNo(id.0 + 1);
        self.settled(inner, Ok(id))
    }

    // One delete vector for each rowset that handles name, ascending: its rowset, the length of its file and its count of rows in
    // memory; then all files one after another, and all rows in memory one after another.
    // The slices are as C lends them, one by one.
    pub fn group(
        self,
        handles: Handles,
        rowsets: &mut [u32],
        lengths: &mut [u32],
        counts: &mut [u32],
        files: &mut [u8],
        rows: &mut [u32],
    ) -> Grouped
        ensures { GroupSays self handles rowsets.old lengths.old counts.old files.old rows.old result rowsets.new lengths.new counts.new files.new rows.new }
    {
        if self.bad() {
            return self.refused(Refusal::BadManager);
        }
        let first = self.inner.next.vector;
        match transaction::group(&handles, first.0, rowsets, lengths, counts, files, rows) {
            Err(refusal) => self.refused(refusal),
            Ok(count) => {
                let mut inner = self.inner;
                inner.next.vector = VectorNo(first.0 + count as u64);
                self.settled(inner, Ok(NewVectors { count, first }))
            }
        }
    }

    // The operations of a batch, turned into lines: a count over the limit is refused before anything is turned.
    pub fn commit(self, batch: Batch, out: &mut [u8]) -> Committed
        ensures { CommitSays self batch.count (batch_of batch) out.old result out.new }
    {
        if self.bad() {
            return self.refused(Refusal::BadManager);
        }
        if MOST_OPERATIONS < batch.count {
            return self.refused(Refusal::TooManyOperations(0));
        }
        let mut lines = Lines::new();
        commit::typed::put_lines(&mut lines, batch);
        self.append(lines.as_slice(), out)
    }

    // The operations as manifest lines: each newline ends one, and bytes after the last newline are one more.
    pub fn commit_lines(self, ops: &[u8], out: &mut [u8]) -> Committed
        ensures { CommitSays self (length (operations_in ops.now)) (operations_in ops.now) out.old result out.new }
    {
        if self.bad() {
            return self.refused(Refusal::BadManager);
        }
        self.append(ops, out)
    }

    // Operations as lines, committed by a manager that has passed 29.
    fn append(&self, ops: &[u8], out: &mut [u8]) -> Committed
        requires passed { bad_manager self.now ≡ false }
        ensures { CommitSays self.now (length (operations_in ops.now)) (operations_in ops.now) out.old result out.new }
    {
        let mut inner = self.inner;
        match commit::commit_lines(&mut inner, ops, out) {
            Err(refusal) => self.refused(refusal),
            Ok(length) => Answered {
                manager: followed(inner, self.inner, length),
                answer: Ok(Appended {
                    epoch: inner.epoch,
                    length,
                }),
            },
        }
    }

    // The same of lines that a call has made, if it is not refused.
    fn append_made(&self, made: Result<(), Refusal>, lines: &[u8], out: &mut [u8]) -> Committed
        requires passed { bad_manager self.now ≡ false }
        ensures { AppendsMade made self.now lines.now out.old result out.new }
    {
        match made {
            Ok(()) => self.append(lines, out),
            Err(refusal) => self.refused(refusal),
        }
    }

    // The rewritten manifest of what is shown now, to replace the old one while the store stays open. Epochs, waiting deletions, locks and
    // next ids go on.
    // Judged, done on a copy, settled, as a vacuum and a lock are: a closure for the middle would be no plainer, since it would have to tell
    // what it leaves in the lent slices.
    pub fn checkpoint(self, out: &mut [u8]) -> Checkpointed
        ensures { CheckpointSays self out.old result out.new }
    {
        if self.bad() {
            return self.refused(Refusal::BadManager);
        }
        let mut inner = self.inner;
        let answer = rewrite::rewrite_into(&mut inner, out).map_err(Refusal::from);
        self.settled(inner, answer)
    }

    // Of the last append only `landed` bytes landed: back to the state before that commit. They stay in the manifest.
    pub fn report(self, book: PinBook, landed: usize) -> Reported
        ensures { ReportSays self book landed result }
    {
        if self.bad() {
            return self.refused(Refusal::BadManager);
        }
        let epoch = self.inner.epoch;
        if book.bad(epoch) {
            return self.refused(Refusal::BadPinBook);
        }
        if self.append <= landed || book.is_pinned(epoch) {
            return self.refused(Refusal::NotReportable);
        }
        let mut inner = self.kept;
        inner.manifest += landed;
        self.settled(
            inner,
            Ok(TakenBack {
                epoch: inner.epoch,
                manifest: inner.manifest,
            }),
        )
    }

    // As `checkpoint`: a closure for the middle would have to tell what it leaves in the slices, and be no plainer.
    pub fn vacuum(self, book: PinBook, tables: &mut [u32], rowsets: &mut [u32]) -> Vacuumed
        ensures { VacuumSays self book tables.old rowsets.old result tables.new rowsets.new }
    {
        if self.bad() {
            return self.refused(Refusal::BadManager);
        }
        let mut inner = self.inner;
        let answer = vacuum::vacuum(&mut inner, &book, tables, rowsets);
        self.settled(inner, answer)
    }

    // The slices are as C lends them, one by one.
    pub fn show_tables(
        self,
        book: PinBook,
        epoch: u32,
        ids: &mut [u32],
        shapes: &mut [u32],
        lengths: &mut [u32],
        names: &mut [u8],
    ) -> Result<usize, Refusal>
        ensures { ShowTablesSays self book epoch ids.old shapes.old lengths.old names.old result ids.new shapes.new lengths.new names.new }
    {
        let state = self.judge()?;
        show::show_tables(state, &book, epoch, ids, shapes, lengths, names)
    }

    // The slices are as C lends them, one by one.
    pub fn show_pairs(
        self,
        book: PinBook,
        epoch: u32,
        tables: &mut [u32],
        rowsets: &mut [u32],
    ) -> Result<usize, Refusal>
        ensures { ShowPairsSays self book epoch tables.old rowsets.old result tables.new rowsets.new }
    {
        let state = self.judge()?;
        show::show_pairs(state, &book, epoch, tables, rowsets)
    }

    // The slices are as C lends them, one by one.
    pub fn show_vectors(
        self,
        book: PinBook,
        epoch: u32,
        tables: &mut [u32],
        rowsets: &mut [u32],
        vectors: &mut [u64],
    ) -> Result<usize, Refusal>
        ensures { ShowVectorsSays self book epoch tables.old rowsets.old vectors.old result tables.new rowsets.new vectors.new }
    {
        let state = self.judge()?;
        show::show_vectors(state, &book, epoch, tables, rowsets, vectors)
    }

    // As `checkpoint`: a closure for the middle would have to tell what it leaves of the state, and be no plainer. `held` is what the lock is to be.
    fn relock(self, table: TableNo, held: bool) -> Locked
        ensures { RelockSays self table held result }
    {
        if self.bad() {
            return self.refused(Refusal::BadManager);
        }
        let mut inner = self.inner;
        let answer = transaction_manager::relock(&mut inner, table, held);
        self.settled(inner, answer)
    }

    pub fn lock(self, table: TableNo) -> Locked
        ensures { LockSays self table result }
    {
        self.relock(table, true)
    }

    pub fn unlock(self, table: TableNo) -> Locked
        ensures { UnlockSays self table result }
    {
        self.relock(table, false)
    }

    // Which of a table's rowsets a compaction is to take: a size is lent for each of them, and those taken are written to the front of
    // `out`.
    // The slices are as C lends them, one by one.
    pub fn select(
        self,
        table: TableNo,
        target: u64,
        sizes: &[u64],
        out: &mut [u32],
    ) -> Result<usize, Refusal>
        ensures { SelectSays self table target sizes.now out.old result out.new }
    {
        let state = self.judge()?;
        compactor::select(state, table, target, sizes, out)
    }

    // A table with the next id: judged first, and then committed as one line.
    pub fn create(self, shape: u32, name: Name, out: &mut [u8]) -> Created
        ensures { CreateSays self shape (name_of name) out.old result out.new }
    {
        let Ok(state) = self.judge() else {
            return self.refused(Refusal::BadManager);
        };
        let mut lines = Lines::new();
        let made = table::create(state, shape, name, out.len(), &mut lines);
        let table = self.inner.next.table;
        let Answered { manager, answer } = self.append_made(made, lines.as_slice(), out);
        Answered {
            manager,
            answer: answer.map(|a| NewTable {
                table,
                epoch: a.epoch,
                length: a.length,
            }),
        }
    }

    // The table, and all its vectors and rowsets, deleted by one commit; it answers as that does.
    // Judged, made, appended, as in `compact`: a closure for the middle would have to tell what it leaves in `lines`, and be no plainer.
    pub fn drop(self, table: TableNo, out: &mut [u8]) -> Committed
        ensures { DropSays self table.0 out.old result out.new }
    {
        let Ok(state) = self.judge() else {
            return self.refused(Refusal::BadManager);
        };
        let mut lines = Lines::new();
        let made = table::drop(state, table, out.len(), &mut lines);
        self.append_made(made, lines.as_slice(), out)
    }

    // The taken rowsets, lent as rising ids, and their vectors deleted and the new rowset added, by one commit; it answers as that does.
    // Judged, made, appended, as in `drop`: a closure for the middle would be no plainer.
    pub fn compact(
        self,
        table: TableNo,
        new: Option<RowsetNo>,
        taken: &[u32],
        out: &mut [u8],
    ) -> Committed
        ensures { CompactSays self table.0 (new_of new) taken.now out.old result out.new }
    {
        let Ok(state) = self.judge() else {
            return self.refused(Refusal::BadManager);
        };
        let mut lines = Lines::new();
        let made = compaction::compact(state, table, new, taken, out.len(), &mut lines);
        self.append_made(made, lines.as_slice(), out)
    }
}
