// What is printed.
use ids::limits::MOST_HELD;
use ids::refusal::Refusal;
use std::fmt::Display;
use std::io;
use version_manager::{Answered, VersionManager};

// Internal. What an accepted call gives, or the refusal, in words and not as its Display has it, which would change what the program prints. Each program
// prints its own words; a shared function would take all of them, and be no plainer.
// Rattle asks for this clause of each function that calls a closure, so that no other form is plainer.
pub fn answer<T, F: FnOnce(T) -> io::Result<()> + Drop>(
    rt: &impl Print,
    answer: Result<T, Refusal>,
    given: F,
) -> io::Result<()>
    requires { F.IsAlwaysCallable given }
{
    match answer {
        Ok(x) => given(x),
        Err(why) => print!(rt; " refused {} place {}", why.number(), why.place()),
    }
}

pub fn count(rt: &impl Print, word: &str, counted: Result<usize, Refusal>) -> io::Result<()> {
    answer(rt, counted, |n| print!(rt; " {word} {n}"))
}

// Internal. The same, and the manager that is handed back.
// Rattle asks for this clause of each function that calls a closure, so that no other form is plainer.
pub fn handed<T, F: FnOnce(T) -> io::Result<()> + Drop>(
    rt: &impl Print,
    done: Answered<T>,
    given: F,
) -> io::Result<()>
    requires { F.IsAlwaysCallable given }
{
    answer(rt, done.answer, given)?;
    state(rt, &done.manager)
}

fn lock(locked: bool) -> &'static str {
    if locked { "held" } else { "free" }
}

fn deletions(rt: &impl Print, deleted: &[u32; MOST_HELD]) -> io::Result<()> {
    let [a, b, c, d, e, ..] = deleted;
    print!(rt; " deleted {a},{b},{c},{d},{e}")
}

// The last append, with the epoch and the manifest length before it, where that state is kept.
fn kept(rt: &impl Print, manager: &VersionManager) -> io::Result<()> {
    let append = manager.append;
    if append == 0 {
        return Ok(());
    }
    let kept = &manager.kept;
    print!(rt;
        " kept {append} epoch {} manifest {}",
        kept.epoch, kept.manifest
    )
}

// Epoch and manifest length, the next ids, how many tables, rowsets and vectors are held, the locks of the first two tables, when the
// first rowsets and vectors were deleted, and what is kept.
fn state(rt: &impl Print, manager: &VersionManager) -> io::Result<()> {
    let held = &manager.inner;
    let next = held.next;
    print!(rt;
        "; epoch {} manifest {} next {},{},{} held {},{},{} {} {}",
        held.epoch,
        held.manifest,
        next.table.0,
        next.rowset.0,
        next.vector.0,
        held.tables.count,
        held.rowsets.count,
        held.vectors.count,
        lock(held.tables.locked[0]),
        lock(held.tables.locked[1])
    )?;
    deletions(rt, &held.rowsets.deleted)?;
    deletions(rt, &held.vectors.deleted)?;
    kept(rt, manager)
}

pub fn bytes(rt: &impl Print, out: &[u8]) -> io::Result<()> {
    rt.write_all(b" |")?;
    rt.write_all(out)
}

pub fn numbers<T: Display>(rt: &impl Print, out: &[T]) -> io::Result<()> {
    rt.write_all(b" |")?;
    for n in out {
        print!(rt; " {n}")?;
    }
    Ok(())
}
