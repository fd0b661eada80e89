// Cases of grouping: each prints its answer, the next vector id, and the lent slices afterwards, whole where they are short and
// else as one number each.
#![tactic(auto)]

use ids::limits::{LARGEST_32, LARGEST_64};
use ids::refusal::Refusal;
use ids::{RowNo, RowsetNo, SecondaryRowHandler, VectorNo};
use status::Status;
use std::io;
use transaction::{Handles, MOST_HANDLES};
use version_manager::{NewVectors, VersionManager};

// The most bytes that files of all handles have.
const MOST_BYTES: usize = 28672;

// What is lent: numbers, or bytes, which are printed in hexadecimal. The lines differ in the format, which cannot be a parameter.
trait Item: Copy {
    // In a slice of at most `FEW` each item is printed.
    const FEW: usize;

    fn show(self, rt: &impl Print) -> io::Result<()>;

    fn wide(self) -> u64;
}

// The format differs, so a shared `show` would be no plainer.
impl Item for u32 {
    const FEW: usize = 8;

    fn show(self, rt: &impl Print) -> io::Result<()> {
        print!(rt; " {self}")
    }

    fn wide(self) -> u64 {
        u64::from(self)
    }
}

// As above: a shared `show` would be no plainer.
impl Item for u8 {
    const FEW: usize = 24;

    fn show(self, rt: &impl Print) -> io::Result<()> {
        print!(rt; " {self:02x}")
    }

    fn wide(self) -> u64 {
        u64::from(self)
    }
}

// One number for all that came before and one more.
fn mixed(sum: u64, x: u64) -> u64 {
    (sum % 1000003 * 31 + x % 1000003 + 1) % 1000003
}

fn items<T: Item>(rt: &impl Print, word: &str, s: &[T]) -> io::Result<()> {
    print!(rt; " {word}")?;
    let mut sum: u64 = 0;
    for x in s {
        if s.len() <= T::FEW {
            x.show(rt)?;
        }
        sum = mixed(sum, x.wide());
    }
    print!(rt; " ={sum}")
}

// Each program prints its own words; a shared function would take all of them, and be no plainer. A refusal is told in words here, and not as its
// Display has it, which would change what the program prints: a second Display would be no plainer.
fn answer(rt: &impl Print, answer: Result<NewVectors, Refusal>) -> io::Result<()> {
    match answer {
        Ok(NewVectors { count, first }) => print!(rt; " vectors {count} first {}", first.0),
        Err(why) => print!(rt; " refused {} place {}", why.number(), why.place()),
    }
}

// How many places are lent of each slice.
#[derive(Clone, Copy)]
struct Room {
    vectors: usize,
    lengths: usize,
    counts: usize,
    bytes: usize,
    rows: usize,
}

// Word by word: a Display would hold the word, the items and the way of each in one type, and be no plainer.
fn group(
    rt: &impl Print,
    word: &str,
    manager: VersionManager,
    handles: Handles,
    room: Room,
) -> io::Result<()> {
    let mut rs = [77u32; MOST_HANDLES];
    let mut ls = [78u32; MOST_HANDLES];
    let mut cs = [79u32; MOST_HANDLES];
    let mut fs = [0xaau8; MOST_BYTES];
    let mut ms = [80u32; MOST_HANDLES];
    let rs = &mut rs[..room.vectors.min(MOST_HANDLES)];
    let ls = &mut ls[..room.lengths.min(MOST_HANDLES)];
    let cs = &mut cs[..room.counts.min(MOST_HANDLES)];
    let fs = &mut fs[..room.bytes.min(MOST_BYTES)];
    let ms = &mut ms[..room.rows.min(MOST_HANDLES)];
    let done = manager.group(handles, rs, ls, cs, fs, ms);
    print!(rt; "{word}")?;
    answer(rt, done.answer)?;
    println!(rt; "; next {}", done.manager.inner.next.vector.0)?;
    items(rt, " rowsets", rs)?;
    items(rt, "lengths", ls)?;
    items(rt, "counts", cs)?;
    items(rt, "files", fs)?;
    items(rt, "rows", ms)?;
    println!(rt;)
}

// A fresh manager whose next vector id is given.
fn drawn(next: u64) -> VersionManager {
    let mut manager = VersionManager::fresh().manager;
    manager.inner.next.vector = VectorNo(next);
    manager
}

// One that 29 refuses: its manifest is too long.
fn beyond() -> VersionManager {
    let mut manager = VersionManager::fresh().manager;
    manager.inner.manifest = 65537;
    manager
}

fn handle(rowset: u32, row: u32) -> SecondaryRowHandler {
    SecondaryRowHandler(RowsetNo(rowset), RowNo(row))
}

// Handles of rowsets and rows.
fn listed(pairs: &[(u32, u32)]) -> Handles {
    let mut items = [handle(0, 0); MOST_HANDLES];
    for (item, (rowset, row)) in items.iter_mut().zip(pairs) {
        *item = handle(*rowset, *row);
    }
    Handles {
        items,
        count: pairs.len(),
    }
}

// The first of them alone.
fn first(count: usize, handles: Handles) -> Handles {
    Handles { count, ..handles }
}

// Handle i is of rowset i * 7919 modulo `rowsets`, and of row i * 31 modulo `rows`.
fn spread(rowsets: u32, rows: u32, count: usize) -> Handles {
    let mut items = [handle(0, 0); MOST_HANDLES];
    for (item, i) in items.iter_mut().zip(0u32..4096) {
        *item = handle(
            i.wrapping_mul(7919) % rowsets.max(1),
            i.wrapping_mul(31) % rows.max(1),
        );
    }
    Handles { items, count }
}

fn lent(n: usize, bytes: usize, rows: usize) -> Room {
    Room {
        vectors: n,
        lengths: n,
        counts: n,
        bytes,
        rows,
    }
}

fn whole() -> Room {
    lent(MOST_HANDLES, MOST_BYTES, MOST_HANDLES)
}

// Two rowsets, out of order and with repeats: two vectors of 17 bytes and 4 rows.
fn mixed_handles() -> Handles {
    let pairs = [(5, 3), (2, 128), (5, 0), (5, 3), (2, 1), (5, 3)];
    listed(&pairs)
}

fn none() -> Handles {
    listed(&[])
}

fn small(rt: &impl Print) -> io::Result<()> {
    group(rt, "none:", drawn(3), none(), lent(1, 1, 1))?;
    group(rt, "none, no room:", drawn(3), none(), lent(0, 0, 0))?;
    group(
        rt,
        "none, ids used up:",
        drawn(LARGEST_64),
        none(),
        lent(1, 1, 1),
    )?;
    let one = [(9, u32::MAX)];
    let single = listed(&one);
    group(rt, "one:", drawn(0), single, lent(2, 8, 2))?;
    group(rt, "mixed:", drawn(40), mixed_handles(), lent(3, 20, 5))?;
    group(
        rt,
        "mixed, exact:",
        drawn(40),
        mixed_handles(),
        lent(2, 17, 4),
    )?;
    group(
        rt,
        "first four:",
        drawn(40),
        first(4, mixed_handles()),
        lent(3, 20, 5),
    )
}

fn short(rt: &impl Print) -> io::Result<()> {
    let exact = lent(2, 17, 4);
    let a = Room {
        vectors: 1,
        ..exact
    };
    group(rt, "rowsets short:", drawn(40), mixed_handles(), a)?;
    let b = Room {
        lengths: 1,
        ..exact
    };
    group(rt, "lengths short:", drawn(40), mixed_handles(), b)?;
    let c = Room { counts: 1, ..exact };
    group(rt, "counts short:", drawn(40), mixed_handles(), c)?;
    group(
        rt,
        "files short:",
        drawn(40),
        mixed_handles(),
        lent(2, 16, 4),
    )?;
    group(
        rt,
        "rows short:",
        drawn(40),
        mixed_handles(),
        lent(2, 17, 3),
    )
}

// 26: two ids of which the second would be the largest value; one id, and none.
fn used_up(rt: &impl Print) -> io::Result<()> {
    let one = [(9, 1)];
    group(
        rt,
        "last two:",
        drawn(LARGEST_64 - 2),
        mixed_handles(),
        lent(2, 17, 4),
    )?;
    group(
        rt,
        "one of two left:",
        drawn(LARGEST_64 - 1),
        mixed_handles(),
        lent(2, 17, 4),
    )?;
    group(
        rt,
        "last one:",
        drawn(LARGEST_64 - 1),
        listed(&one),
        lent(1, 3, 1),
    )?;
    group(
        rt,
        "none left:",
        drawn(LARGEST_64),
        listed(&one),
        lent(1, 3, 1),
    )
}

// 2: the largest value is no rowset; it may stand past the count, and may be a row.
fn malformed(rt: &impl Print) -> io::Result<()> {
    let last = [(LARGEST_32 - 1, LARGEST_32), (3, 1)];
    group(rt, "last rowset:", drawn(0), listed(&last), lent(2, 12, 2))?;
    let bad = [(3, 1), (LARGEST_32, 1)];
    group(rt, "no rowset:", drawn(0), listed(&bad), lent(2, 12, 2))?;
    group(
        rt,
        "past the count:",
        drawn(0),
        first(1, listed(&bad)),
        lent(2, 12, 2),
    )
}

fn with_bad(mut handles: Handles) -> Handles {
    handles.items[4095] = handle(LARGEST_32, 0);
    handles
}

fn many() -> Handles {
    spread(5, 50, 4097)
}

// Which refusal comes first.
fn order(rt: &impl Print) -> io::Result<()> {
    group(rt, "too many:", drawn(0), many(), lent(5, 8, 8))?;
    group(rt, "2 before 8:", drawn(0), with_bad(many()), lent(0, 0, 0))?;
    group(rt, "8 before 26:", drawn(LARGEST_64), many(), lent(0, 0, 0))?;
    group(
        rt,
        "26 before 9:",
        drawn(LARGEST_64),
        mixed_handles(),
        lent(0, 0, 0),
    )?;
    group(
        rt,
        "29 before 2:",
        beyond(),
        with_bad(many()),
        lent(0, 0, 0),
    )
}

fn large(rt: &impl Print) -> io::Result<()> {
    group(rt, "257 rowsets:", drawn(7), spread(257, 60, 4096), whole())?;
    group(
        rt,
        "one rowset, rows 100 times:",
        drawn(7),
        spread(1, 41, 4096),
        whole(),
    )?;
    group(
        rt,
        "4,096 rowsets:",
        drawn(7),
        spread(4096, u32::MAX, 4096),
        whole(),
    )?;
    group(
        rt,
        "4,095 handles:",
        drawn(7),
        spread(4096, u32::MAX, 4095),
        whole(),
    )
}

fn run(rt: &impl Print) -> io::Result<()> {
    small(rt)?;
    short(rt)?;
    used_up(rt)?;
    malformed(rt)?;
    order(rt)?;
    large(rt)
}

fn main(rt: HostRuntime) -> Status {
    status::printed(&rt, run(&rt))
}
