// The border: every entry point for C and Rust. Structs of numbers go by value and slices by pointer and length; no enum crosses. The C interface has
// one function for each call, with parameters one by one, which is why these functions look alike.
#![tactic(auto)]

ghost use Rattle.std.specs.Prelude.{◌≡◌};
ghost use Rattle.version_manager.specs.Managers.{FreshSays};
ghost use Rattle.host.specs.Numbers.{said_by, told_by};
ghost use Rattle.host.specs.Calls.{WriteTold, ReadTold, MemoryTold, MaskTold, DrawRowsetTold, DrawVectorTold, GroupTold, CommitTold, CreateTold, DropTold, CompactTold, VacuumTold, CheckpointTold, ReportTold, ShowTablesTold, ShowPairsTold, ShowVectorsTold, LockTold, UnlockTold, SelectTold, ReopenTold, PinTold, UnpinTold};

use answers::{Answer, Values};
use ids::{RowNo, TableNo};
use pinning::Stepped;
use pins::PinBook;
use storage::Reopened;
use version_manager::{Answered, Opened, VersionManager};

pub mod answers;
pub mod arguments;

// C reads these three structs: it has none that are generic.
#[repr(C)]
#[derive(Clone, Copy)]
pub struct Handed {
    pub manager: VersionManager,
    pub answer: Answer,
}

#[repr(C)]
#[derive(Clone, Copy)]
pub struct Booked {
    pub book: PinBook,
    pub answer: Answer,
}

#[repr(C)]
#[derive(Clone, Copy)]
pub struct Begun {
    pub manager: VersionManager,
    pub book: PinBook,
    pub answer: Answer,
}

impl<T: Values> From<Answered<T>> for Handed {
    ghost from_gives = { λ done h. (h.manager ≡ done.manager) × (said_by h.answer ≡ told_by T.numbers done.answer) };

    fn from(done: Answered<T>) -> Handed {
        Handed {
            manager: done.manager,
            answer: Answer::from(done.answer),
        }
    }
}

// The same line for the other struct that C reads.
impl<T: Values> From<Stepped<T>> for Booked {
    ghost from_gives = { λ step b. (b.book ≡ step.book) × (said_by b.answer ≡ told_by T.numbers step.answer) };

    fn from(step: Stepped<T>) -> Booked {
        Booked {
            book: step.book,
            answer: Answer::from(step.answer),
        }
    }
}

// C has one function for each call, by these names and with the parameters one by one.
#[unsafe(no_mangle)]
pub extern "C" fn seqapti_write_all(rows: &[u32], out: &mut [u8]) -> Answer
    ensures { WriteTold rows.now out.old result out.new }
{
    Answer::from(delete_vector::write_all(rows, out))
}

#[unsafe(no_mangle)]
pub extern "C" fn seqapti_read_all(bytes: &[u8], rows: &mut [u32]) -> Answer
    ensures { ReadTold bytes.now rows.old result rows.new }
{
    Answer::from(delete_vector::read_all(bytes, rows))
}

#[unsafe(no_mangle)]
pub extern "C" fn seqapti_in_memory(rows: &[u32], out: &mut [u32]) -> Answer
    ensures { MemoryTold rows.now out.old result out.new }
{
    Answer::from(delete_vector::in_memory(rows, out))
}

#[unsafe(no_mangle)]
pub extern "C" fn seqapti_apply_to(rows: &[u32], bits: &mut [u8], offset: u32) -> Answer
    ensures { MaskTold rows.now bits.old offset result bits.new }
{
    Answer::from(delete_vector::apply_to(rows, bits, RowNo(offset)))
}

#[unsafe(no_mangle)]
pub extern "C" fn seqapti_fresh() -> Opened
    ensures { FreshSays result }
{
    VersionManager::fresh()
}

#[unsafe(no_mangle)]
pub extern "C" fn seqapti_draw_rowset(manager: VersionManager) -> Handed
    ensures { DrawRowsetTold manager result }
{
    Handed::from(manager.draw_rowset())
}

#[unsafe(no_mangle)]
pub extern "C" fn seqapti_draw_vector(manager: VersionManager) -> Handed
    ensures { DrawVectorTold manager result }
{
    Handed::from(manager.draw_vector())
}

// Each handle as one number, its rowset in the upper 32 bits and its row in the lower ones.
#[unsafe(no_mangle)]
pub extern "C" fn seqapti_group(
    manager: VersionManager,
    handles: &[u64],
    rowsets: &mut [u32],
    lengths: &mut [u32],
    counts: &mut [u32],
    files: &mut [u8],
    rows: &mut [u32],
) -> Handed
    ensures { GroupTold manager handles.now rowsets.old lengths.old counts.old files.old rows.old result rowsets.new lengths.new counts.new files.new rows.new }
{
    let handles = arguments::handles(handles);
    Handed::from(manager.group(handles, rowsets, lengths, counts, files, rows))
}

// The operations as manifest lines: each newline ends one, and bytes after the last newline are one more.
#[unsafe(no_mangle)]
pub extern "C" fn seqapti_commit(manager: VersionManager, ops: &[u8], out: &mut [u8]) -> Handed
    ensures { CommitTold manager ops.now out.old result out.new }
{
    Handed::from(manager.commit_lines(ops, out))
}

#[unsafe(no_mangle)]
pub extern "C" fn seqapti_create(
    manager: VersionManager,
    shape: u32,
    name: &[u8],
    out: &mut [u8],
) -> Handed
    ensures { CreateTold manager shape name.now out.old result out.new }
{
    let name = arguments::name(name);
    Handed::from(manager.create(shape, name, out))
}

#[unsafe(no_mangle)]
pub extern "C" fn seqapti_drop(manager: VersionManager, table: u32, out: &mut [u8]) -> Handed
    ensures { DropTold manager table out.old result out.new }
{
    Handed::from(manager.drop(TableNo(table), out))
}

// C says by a flag whether there is a new rowset: without one, `new` is not looked at.
#[unsafe(no_mangle)]
pub extern "C" fn seqapti_compact(
    manager: VersionManager,
    table: u32,
    has_new: bool,
    new: u32,
    taken: &[u32],
    out: &mut [u8],
) -> Handed
    ensures { CompactTold manager table has_new new taken.now out.old result out.new }
{
    let new = arguments::new_rowset(has_new, new);
    Handed::from(manager.compact(TableNo(table), new, taken, out))
}

#[unsafe(no_mangle)]
pub extern "C" fn seqapti_vacuum(
    manager: VersionManager,
    book: PinBook,
    tables: &mut [u32],
    rowsets: &mut [u32],
) -> Handed
    ensures { VacuumTold manager book tables.old rowsets.old result tables.new rowsets.new }
{
    Handed::from(manager.vacuum(book, tables, rowsets))
}

#[unsafe(no_mangle)]
pub extern "C" fn seqapti_checkpoint(manager: VersionManager, out: &mut [u8]) -> Handed
    ensures { CheckpointTold manager out.old result out.new }
{
    Handed::from(manager.checkpoint(out))
}

#[unsafe(no_mangle)]
pub extern "C" fn seqapti_report(manager: VersionManager, book: PinBook, landed: usize) -> Handed
    ensures { ReportTold manager book landed result }
{
    Handed::from(manager.report(book, landed))
}

#[unsafe(no_mangle)]
pub extern "C" fn seqapti_show_tables(
    manager: VersionManager,
    book: PinBook,
    epoch: u32,
    ids: &mut [u32],
    shapes: &mut [u32],
    lengths: &mut [u32],
    names: &mut [u8],
) -> Answer
    ensures { ShowTablesTold manager book epoch ids.old shapes.old lengths.old names.old result ids.new shapes.new lengths.new names.new }
{
    Answer::from(manager.show_tables(book, epoch, ids, shapes, lengths, names))
}

#[unsafe(no_mangle)]
pub extern "C" fn seqapti_show_pairs(
    manager: VersionManager,
    book: PinBook,
    epoch: u32,
    tables: &mut [u32],
    rowsets: &mut [u32],
) -> Answer
    ensures { ShowPairsTold manager book epoch tables.old rowsets.old result tables.new rowsets.new }
{
    Answer::from(manager.show_pairs(book, epoch, tables, rowsets))
}

#[unsafe(no_mangle)]
pub extern "C" fn seqapti_show_vectors(
    manager: VersionManager,
    book: PinBook,
    epoch: u32,
    tables: &mut [u32],
    rowsets: &mut [u32],
    vectors: &mut [u64],
) -> Answer
    ensures { ShowVectorsTold manager book epoch tables.old rowsets.old vectors.old result tables.new rowsets.new vectors.new }
{
    Answer::from(manager.show_vectors(book, epoch, tables, rowsets, vectors))
}

#[unsafe(no_mangle)]
pub extern "C" fn seqapti_lock(manager: VersionManager, table: u32) -> Handed
    ensures { LockTold manager table result }
{
    Handed::from(manager.lock(TableNo(table)))
}

#[unsafe(no_mangle)]
pub extern "C" fn seqapti_unlock(manager: VersionManager, table: u32) -> Handed
    ensures { UnlockTold manager table result }
{
    Handed::from(manager.unlock(TableNo(table)))
}

#[unsafe(no_mangle)]
pub extern "C" fn seqapti_select(
    manager: VersionManager,
    table: u32,
    target: u64,
    sizes: &[u64],
    out: &mut [u32],
) -> Answer
    ensures { SelectTold manager table target sizes.now out.old result out.new }
{
    Answer::from(manager.select(TableNo(table), target, sizes, out))
}

#[unsafe(no_mangle)]
pub extern "C" fn seqapti_bootstrap(src: &[u8], out: &mut [u8]) -> Begun
    ensures { ReopenTold src.now out.old result out.new }
{
    let Reopened {
        manager,
        book,
        answer,
    } = storage::bootstrap(src, out);
    let answer = Answer::from(answer);
    Begun {
        manager,
        book,
        answer,
    }
}

// The book goes by value: `pinned` changes a copy, and hands it back beside the answer.
#[unsafe(no_mangle)]
pub extern "C" fn seqapti_pin(manager: VersionManager, book: PinBook) -> Booked
    ensures { PinTold manager book result }
{
    Booked::from(pinning::pinned(manager, book))
}

#[unsafe(no_mangle)]
pub extern "C" fn seqapti_unpin(manager: VersionManager, book: PinBook, epoch: u32) -> Booked
    ensures { UnpinTold manager epoch book result }
{
    Booked::from(pinning::unpinned(manager, book, epoch))
}
