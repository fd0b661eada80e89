// Draws, locks, reports and pins; the other calls are in `appends` and `shows`.
use crate::{Call, appends, made, say, shows};
use ids::TableNo;
use pinning::Stepped;
use pins::PinBook;
use std::io;

// The epochs and their counts, as far as there are places.
fn printed(rt: &impl Print, book: PinBook) -> io::Result<()> {
    print!(rt; "; pins {}", book.count)?;
    for x in book.items.iter().take(book.count) {
        print!(rt; " {}:{}", x.epoch, x.count)?;
    }
    Ok(())
}

// Rattle asks for this clause of each function that calls a closure, so that no other form is plainer.
fn stepped<T, F: FnOnce(T) -> io::Result<()> + Drop>(
    rt: &impl Print,
    step: Stepped<T>,
    given: F,
) -> io::Result<()>
    requires { F.IsAlwaysCallable given }
{
    say::answer(rt, step.answer, given)?;
    printed(rt, step.book)
}

// `r` and `w` draw a rowset's and a vector's id, `q` reports how many bytes of the last append landed, `l` and `o` take a table's lock and give it
// back, `n` and `m` pin and unpin an epoch. An enum of the letters would be matched here all the same, and be no plainer.
pub fn call(rt: &impl Print, call: Call) -> io::Result<()> {
    let manager = call.numbers.manager();
    let book = call.numbers.book();
    let landed = call.fields[0] as usize;
    let first = made::narrow(call.fields[0]);
    let table = TableNo(first);
    match call.letter {
        b'r' => say::handed(rt, manager.draw_rowset(), |id| print!(rt; " id {}", id.0))?,
        b'w' => say::handed(rt, manager.draw_vector(), |id| print!(rt; " id {}", id.0))?,
        b'q' => say::handed(
            rt,
            manager.report(book, landed),
            |back| print!(rt; " epoch {} manifest {}", back.epoch, back.manifest),
        )?,
        b'l' => say::handed(rt, manager.lock(table), |()| print!(rt; " done"))?,
        b'o' => say::handed(rt, manager.unlock(table), |()| print!(rt; " done"))?,
        b'n' => stepped(
            rt,
            pinning::pinned(manager, book),
            |epoch| print!(rt; " epoch {epoch}"),
        )?,
        b'm' => stepped(rt, pinning::unpinned(manager, book, first), |told| {
            let due = if told.due { " due" } else { "" };
            print!(rt; "{due} ready {}", told.ready)
        })?,
        b'u' | b'p' | b'v' | b't' | b's' => shows::call(rt, call)?,
        _ => appends::call(rt, call)?,
    }
    println!(rt;)
}
