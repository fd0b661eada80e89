// The calls of the claim, with the parameters of the C interface. Each has one proposition of `port` as its contract, so that an entry point that
// says less, or a field that says something else, is refused by the check.
ghost use Rattle.std.specs.Prelude.{length};
ghost use Rattle.ids.specs.Names.{name_of};
ghost use Rattle.manifest.specs.Operations.{batch_of};
ghost use Rattle.compaction.specs.New.{new_of};
ghost use Rattle.commit.specs.Lent.{operations_in};
ghost use Rattle.plain_record.specs.Run.{port};

use ids::name::Name;
use ids::refusal::Refusal;
use ids::{RowsetNo, TableNo};
use manifest::operation::Batch;
use pinning::{PinStep, UnpinStep};
use pins::PinBook;
use storage::Reopened;
use transaction::Handles;
use version_manager::{
    Checkpointed, Committed, Created, DrawnRowset, DrawnVector, Grouped, Locked, Opened, Reported,
    Vacuumed, VersionManager,
};

pub fn fresh() -> Opened
    ensures { port.fresh result }
{
    VersionManager::fresh()
}

pub fn draw_rowset(manager: VersionManager) -> DrawnRowset
    ensures { port.draw_rowset manager result }
{
    manager.draw_rowset()
}

pub fn draw_vector(manager: VersionManager) -> DrawnVector
    ensures { port.draw_vector manager result }
{
    manager.draw_vector()
}

pub fn group(
    manager: VersionManager,
    handles: Handles,
    rowsets: &mut [u32],
    lengths: &mut [u32],
    counts: &mut [u32],
    files: &mut [u8],
    rows: &mut [u32],
) -> Grouped
    ensures { port.group manager handles rowsets.old lengths.old counts.old files.old rows.old result rowsets.new lengths.new counts.new files.new rows.new }
{
    manager.group(handles, rowsets, lengths, counts, files, rows)
}

pub fn lock(manager: VersionManager, table: TableNo) -> Locked
    ensures { port.lock manager table result }
{
    manager.lock(table)
}

pub fn unlock(manager: VersionManager, table: TableNo) -> Locked
    ensures { port.unlock manager table result }
{
    manager.unlock(table)
}

pub fn commit(manager: VersionManager, batch: Batch, out: &mut [u8]) -> Committed
    ensures { port.commit manager batch.count (batch_of batch) out.old result out.new }
{
    manager.commit(batch, out)
}

pub fn commit_lines(manager: VersionManager, ops: &[u8], out: &mut [u8]) -> Committed
    ensures { port.commit manager (length (operations_in ops.now)) (operations_in ops.now) out.old result out.new }
{
    manager.commit_lines(ops, out)
}

pub fn create(manager: VersionManager, shape: u32, name: Name, out: &mut [u8]) -> Created
    ensures { port.create manager shape (name_of name) out.old result out.new }
{
    manager.create(shape, name, out)
}

pub fn drop(manager: VersionManager, table: TableNo, out: &mut [u8]) -> Committed
    ensures { port.drop manager table.0 out.old result out.new }
{
    manager.drop(table, out)
}

pub fn compact(
    manager: VersionManager,
    table: TableNo,
    new: Option<RowsetNo>,
    taken: &[u32],
    out: &mut [u8],
) -> Committed
    ensures { port.compact manager table.0 (new_of new) taken.now out.old result out.new }
{
    manager.compact(table, new, taken, out)
}

pub fn pin(manager: VersionManager, book: PinBook) -> PinStep
    ensures { port.pin manager book result.answer result.book }
{
    pinning::pinned(manager, book)
}

pub fn unpin(manager: VersionManager, book: PinBook, epoch: u32) -> UnpinStep
    ensures { port.unpin manager epoch book result.answer result.book }
{
    pinning::unpinned(manager, book, epoch)
}

pub fn vacuum(
    manager: VersionManager,
    book: PinBook,
    tables: &mut [u32],
    rowsets: &mut [u32],
) -> Vacuumed
    ensures { port.vacuum manager book tables.old rowsets.old result tables.new rowsets.new }
{
    manager.vacuum(book, tables, rowsets)
}

pub fn report(manager: VersionManager, book: PinBook, landed: usize) -> Reported
    ensures { port.report manager book landed result }
{
    manager.report(book, landed)
}

pub fn checkpoint(manager: VersionManager, out: &mut [u8]) -> Checkpointed
    ensures { port.checkpoint manager out.old result out.new }
{
    manager.checkpoint(out)
}

pub fn reopen(src: &[u8], out: &mut [u8]) -> Reopened
    ensures { port.reopen src.now out.old result out.new }
{
    storage::bootstrap(src, out)
}

pub fn show_tables(
    manager: VersionManager,
    book: PinBook,
    epoch: u32,
    ids: &mut [u32],
    shapes: &mut [u32],
    lengths: &mut [u32],
    names: &mut [u8],
) -> Result<usize, Refusal>
    ensures { port.show_tables manager book epoch ids.old shapes.old lengths.old names.old result ids.new shapes.new lengths.new names.new }
{
    manager.show_tables(book, epoch, ids, shapes, lengths, names)
}

pub fn show_pairs(
    manager: VersionManager,
    book: PinBook,
    epoch: u32,
    tables: &mut [u32],
    rowsets: &mut [u32],
) -> Result<usize, Refusal>
    ensures { port.show_pairs manager book epoch tables.old rowsets.old result tables.new rowsets.new }
{
    manager.show_pairs(book, epoch, tables, rowsets)
}

pub fn show_vectors(
    manager: VersionManager,
    book: PinBook,
    epoch: u32,
    tables: &mut [u32],
    rowsets: &mut [u32],
    vectors: &mut [u64],
) -> Result<usize, Refusal>
    ensures { port.show_vectors manager book epoch tables.old rowsets.old vectors.old result tables.new rowsets.new vectors.new }
{
    manager.show_vectors(book, epoch, tables, rowsets, vectors)
}
