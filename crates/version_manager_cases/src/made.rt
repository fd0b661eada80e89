// A manager, a pin book and a batch made by hand, from numbers.
ghost use Rattle.std.specs.Prelude.{◌<◌, ◌≤◌};

use ids::limits::{LONGEST_NAME, MOST_OPERATIONS, MOST_TABLES, NAME_BYTES};
use ids::name::Name;
use ids::{RowsetNo, TableNo, VectorNo};
use manifest::operation::{Batch, EpochOp};
use pins::{MOST_PINNED, Pin, PinBook};
use snapshot::rowsets::Rowsets;
use snapshot::tables::Tables;
use snapshot::vectors::Vectors;
use std::array;
use std::ops::Range;
use version_manager::VersionManager;
use version_state::{NextIds, VersionManagerInner};

// Where the numbers stand: first the epoch, the manifest's length, the next ids and the counts of tables, rowsets, vectors and pinned
// epochs, then those of each list's places, then the length of the last append. The state that is kept for it has the same from `FORMER` on.
pub const ALL: usize = 103;

const TABLES: usize = 9;

const ROWSETS: usize = 17;

const VECTORS: usize = 37;

const PINS: usize = 47;

const APPEND: usize = 55;

const FORMER: usize = 56;

// Where the numbers of a line go: `e` the epoch, `m` the manifest's length, `n` the next ids, `c` how many tables, rowsets and vectors, `k`
// how many pinned epochs. With the digit of its place `t` is a table (id, the name's first byte, its length, 1 if it is locked), `p` a
// rowset (its ids, epochs added and deleted at), `v` a vector, `a` the length of the last append, and any other a pinned epoch with its
// count. Capitals are for the state before that append.
pub fn place(letter: u8, digit: u8) -> usize
    ensures { result ≤ 103 }
{
    let i = (digit % 16) as usize;
    match letter {
        b'e' => 0,
        b'm' => 1,
        b'n' => 2,
        b'c' => 5,
        b'k' => 8,
        b't' => ALL.min(TABLES + 4 * i),
        b'p' => ALL.min(ROWSETS + 4 * i),
        b'v' => ALL.min(VECTORS + 5 * i),
        b'a' => APPEND,
        b'E' => FORMER,
        b'M' => FORMER + 1,
        b'N' => FORMER + 2,
        b'C' => FORMER + 5,
        b'T' => ALL.min(FORMER + TABLES + 4 * i),
        b'P' => ALL.min(FORMER + ROWSETS + 4 * i),
        b'V' => ALL.min(FORMER + VECTORS + 5 * i),
        _ => ALL.min(PINS + 2 * i),
    }
}

pub fn byte(n: u64) -> u8 {
    (n % 256) as u8
}

// 0 where it is too large.
pub fn narrow(n: u64) -> u32 {
    u32::try_from(n).unwrap_or(0)
}

// What the next call is made of.
#[derive(Clone, Copy)]
pub struct Numbers {
    pub all: [u64; ALL],
}

// Those of one state.
#[derive(Clone, Copy)]
struct State<'a> {
    numbers: &'a [u64],
}

impl State<'_> {
    fn at(&self, i: usize) -> u64 {
        self.numbers.get(i).copied().unwrap_or(0)
    }

    fn id_at(&self, i: usize) -> u32 {
        narrow(self.at(i))
    }

    // Row `i` of a list: its `WIDTH` numbers.
    fn row<const WIDTH: usize>(&self, list: Range<usize>, i: usize) -> Option<[u64; WIDTH]>
        requires { 0 < WIDTH }
    {
        let (rows, _) = self.numbers.get(list)?.as_chunks::<WIDTH>();
        rows.get(i).copied()
    }

    // Past the first two, table `i` has the id `i` and a name of `i + 1` letters `a`.
    fn table(&self, i: usize) -> [u64; 4] {
        let id = i as u64;
        self.row(TABLES..ROWSETS, i)
            .unwrap_or([id, 97, id.saturating_add(1), 0])
    }

    fn tables(&self) -> Tables {
        let mut names = [b'a'; NAME_BYTES];
        names[0] = byte(self.table(0)[1]);
        names[LONGEST_NAME] = byte(self.table(1)[1]);
        Tables {
            ids: array::from_fn(|i| narrow(self.table(i)[0])),
            shapes: [7; MOST_TABLES],
            lengths: array::from_fn(|i| narrow(self.table(i)[2])),
            names,
            locked: array::from_fn(|i| self.table(i)[3] == 1),
            count: self.at(5) as usize,
        }
    }

    // Past the first five, rowset `i` is of table 1 and has the id `i`.
    fn rowset(&self, i: usize) -> [u64; 4] {
        self.row(ROWSETS..VECTORS, i).unwrap_or([1, i as u64, 1, 0])
    }

    // Column by column, as the C interface lays them out: the names and the types of the columns are their own.
    fn rowsets(&self) -> Rowsets {
        Rowsets {
            tables: array::from_fn(|i| narrow(self.rowset(i)[0])),
            rowsets: array::from_fn(|i| narrow(self.rowset(i)[1])),
            added: array::from_fn(|i| narrow(self.rowset(i)[2])),
            deleted: array::from_fn(|i| narrow(self.rowset(i)[3])),
            count: self.at(6) as usize,
        }
    }

    fn vector(&self, i: usize) -> [u64; 5] {
        self.row(VECTORS..PINS, i).unwrap_or([0; 5])
    }

    // Column by column, as the C interface lays them out.
    fn vectors(&self) -> Vectors {
        Vectors {
            tables: array::from_fn(|i| narrow(self.vector(i)[0])),
            rowsets: array::from_fn(|i| narrow(self.vector(i)[1])),
            vectors: array::from_fn(|i| self.vector(i)[2]),
            added: array::from_fn(|i| narrow(self.vector(i)[3])),
            deleted: array::from_fn(|i| narrow(self.vector(i)[4])),
            count: self.at(7) as usize,
        }
    }

    fn inner(&self) -> VersionManagerInner {
        VersionManagerInner {
            epoch: self.id_at(0),
            next: NextIds {
                table: TableNo(self.id_at(2)),
                rowset: RowsetNo(self.id_at(3)),
                vector: VectorNo(self.at(4)),
            },
            tables: self.tables(),
            rowsets: self.rowsets(),
            vectors: self.vectors(),
            manifest: self.at(1) as usize,
        }
    }

    // The first four places by their numbers; each after them has the epoch after its place, pinned once, and the last as often as it can be.
    fn pin(&self, i: usize) -> Pin {
        let count = if i < MOST_PINNED - 1 { 1 } else { 65535 };
        let row = self
            .row::<2>(PINS..APPEND, i)
            .unwrap_or([(i as u64).saturating_add(1), count]);
        Pin {
            epoch: narrow(row[0]),
            count: (row[1] % 65536) as u16,
        }
    }
}

impl Numbers {
    pub fn manager(&self) -> VersionManager {
        let (now, former) = self.all.split_at(FORMER);
        VersionManager {
            inner: State { numbers: now }.inner(),
            kept: State { numbers: former }.inner(),
            append: self.all[APPEND] as usize,
        }
    }

    pub fn book(&self) -> PinBook {
        let now = State { numbers: &self.all };
        PinBook {
            items: array::from_fn(|i| now.pin(i)),
            count: now.at(8) as usize,
        }
    }
}

// The byte, `len` times.
pub fn name(byte: u8, len: u64) -> Name {
    Name {
        bytes: [byte; LONGEST_NAME],
        len: len as usize,
    }
}

// One operation of each kind, of which the second creates table 10 and the sixth drops it; each after these is an `N`.
pub fn batch(count: u64, name: Name) -> Batch {
    let t = TableNo(0);
    let new = RowsetNo(4);
    let old = RowsetNo(1);
    let mut changes = [EpochOp::NextIds(t, new, VectorNo(0)); MOST_OPERATIONS];
    changes[0] = EpochOp::AddRowSet(t, new);
    changes[1] = EpochOp::CreateTable(TableNo(10), 7, name);
    changes[2] = EpochOp::AddDV(t, new, VectorNo(7));
    changes[3] = EpochOp::DeleteRowSet(t, old);
    changes[4] = EpochOp::DeleteDV(t, old, VectorNo(5));
    changes[5] = EpochOp::DropTable(TableNo(10));
    Batch {
        changes,
        count: count as usize,
    }
}
