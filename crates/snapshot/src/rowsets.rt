// The rowsets that are held, in columns.
ghost use Rattle.std.specs.Prelude.{◌≡◌};
ghost use Rattle.snapshot.specs.Views.{rowsets_of, pair_ids};

use crate::counted::Counted;
use crate::held::{Held, HeldColumns, HeldIds};
use ids::limits::MOST_HELD;
use ids::{RowsetNo, TableNo};

// Of one rowset that is held or looked for.
#[derive(Clone, Copy, PartialEq, Eq, PartialOrd, Ord, Default)]
pub struct RowsetIds {
    pub table: TableNo,
    pub rowset: RowsetNo,
}

impl HeldIds for RowsetIds {
    ghost use Rattle.std.specs.Prelude.{[], ◌∷◌};
    ghost use Rattle.lists.proofs.Compared.{partial-two, same-two};

    ghost numbers = { pair_ids };

    ghost zeros = { 0 ∷ [] };

    fn first_of(table: TableNo) -> Self {
        RowsetIds {
            table,
            rowset: RowsetNo(0),
        }
    }

    fn below(self, next: Self) -> bool {
        self.table < next.table && self.rowset < next.rowset
    }

    ghost in_order = { λ a b. partial-two a.table.0 a.rowset.0 b.table.0 b.rowset.0 };

    ghost alike = { λ a b. same-two a.table.0 a.rowset.0 b.table.0 b.rowset.0 };
}

// Held rowsets: the first `count` places of each column, ascending by table and rowset. `deleted` is 0 until it is deleted.
// The C interface passes this struct by value, so that its layout is fixed.
#[repr(C)]
#[derive(Clone, Copy, Default)]
pub struct Rowsets {
    pub tables: [u32; MOST_HELD],
    pub rowsets: [u32; MOST_HELD],
    pub added: [u32; MOST_HELD],
    pub deleted: [u32; MOST_HELD],
    pub count: usize,
}

impl Counted for Rowsets {
    ghost entries = { rowsets_of };

    ghost count = { λ s. s.count };

    fn count(&self) -> usize {
        self.count
    }
}

impl HeldColumns for Rowsets {
    ghost use Rattle.std.specs.Prelude.{[], ◌∷◌};
    ghost use Rattle.lists.proofs.Compared.{below-two};
    ghost use Rattle.columns.specs.Rows.{column};
    ghost use Rattle.columns.proofs.Rows.{rows-length, rows_at};
    ghost use Rattle.snapshot.specs.Entries.{entry_at, nothing};

    type Ids = RowsetIds;

    fn none() -> Self {
        Rowsets::default()
    }

    fn get(&self, i: usize) -> Held<RowsetIds> {
        Held {
            ids: RowsetIds {
                table: TableNo(self.tables[i]),
                rowset: RowsetNo(self.rowsets[i]),
            },
            added: self.added[i],
            deleted: self.deleted[i],
        }
    }

    fn set(&mut self, i: usize, held: &Held<RowsetIds>) {
        self.tables[i] = held.ids.table.0;
        self.rowsets[i] = held.ids.rowset.0;
        self.added[i] = held.added;
        self.deleted[i] = held.deleted;
    }

    fn insert(&mut self, at: usize, ids: RowsetIds, epoch: u32) {
        let count = self.count;
        columns::insert(&mut self.tables, count, at, ids.table.0);
        columns::insert(&mut self.rowsets, count, at, ids.rowset.0);
        columns::insert(&mut self.added, count, at, epoch);
        columns::insert(&mut self.deleted, count, at, 0);
        self.count = count + 1;
    }

    fn truncate(&mut self, end: usize) {
        self.count = end;
    }

    ghost sized = { λ s. rows-length (entry_at (s.tables ∷ s.rowsets ∷ []) s.added s.deleted) s.count };

    ghost before_table = { λ s t i h. rw (rows_at (entry_at (s.tables ∷ s.rowsets ∷ []) s.added s.deleted) s.count i nothing h) (below-two (column s.tables i) (column s.rowsets i) t) };
}
