// The delete vectors that are held, in columns.
ghost use Rattle.std.specs.Prelude.{◌≡◌, true, [], ◌∷◌, ◌≤◌, eqb, get_or, take};
ghost use Rattle.ids.specs.Limits.{most_held};
ghost use Rattle.lists.specs.Keyed.{keep, any_of, has, ascending};
ghost use Rattle.snapshot.specs.Entries.{by_ids};
ghost use Rattle.snapshot.specs.Views.{rowsets_of, vectors_of, pair_ids, vector_ids};

use crate::counted::Counted;
use crate::held::{Held, HeldColumns, HeldIds};
use crate::rowsets::{RowsetIds, Rowsets};
use ids::limits::MOST_HELD;
use ids::{RowsetNo, TableNo, VectorNo};

// Of one vector that is held or looked for. `NextIds` has the ids to come: one type would be no plainer.
#[derive(Clone, Copy, PartialEq, Eq, PartialOrd, Ord, Default)]
pub struct VectorIds {
    pub table: TableNo,
    pub rowset: RowsetNo,
    pub vector: VectorNo,
}

impl VectorIds {
    // The table and the rowset alone: of a vector's ids, the rowset that it lies over.
    pub fn pair(self) -> RowsetIds
        ensures { pair_ids result ≡ take 2 (vector_ids self) }
    {
        RowsetIds {
            table: self.table,
            rowset: self.rowset,
        }
    }
}

impl HeldIds for VectorIds {
    ghost use Rattle.std.specs.Prelude.{[], ◌∷◌};
    ghost use Rattle.lists.proofs.Compared.{partial-three, same-three};

    ghost numbers = { vector_ids };

    ghost zeros = { 0 ∷ 0 ∷ [] };

    fn first_of(table: TableNo) -> Self {
        VectorIds {
            table,
            rowset: RowsetNo(0),
            vector: VectorNo(0),
        }
    }

    fn below(self, next: Self) -> bool {
        self.table < next.table && self.rowset < next.rowset && self.vector < next.vector
    }

    ghost in_order = { λ a b. partial-three a.table.0 a.rowset.0 a.vector.0 b.table.0 b.rowset.0 b.vector.0 };

    ghost alike = { λ a b. same-three a.table.0 a.rowset.0 a.vector.0 b.table.0 b.rowset.0 b.vector.0 };
}

// Held delete vectors: the first `count` places of each column, ascending by table, rowset and vector. `deleted` is 0 until it is deleted.
// The C interface passes this struct by value, so that its layout is fixed.
#[repr(C)]
#[derive(Clone, Copy, Default)]
pub struct Vectors {
    pub tables: [u32; MOST_HELD],
    pub rowsets: [u32; MOST_HELD],
    pub vectors: [u64; MOST_HELD],
    pub added: [u32; MOST_HELD],
    pub deleted: [u32; MOST_HELD],
    pub count: usize,
}

impl Counted for Vectors {
    ghost entries = { vectors_of };

    ghost count = { λ s. s.count };

    fn count(&self) -> usize {
        self.count
    }
}

impl HeldColumns for Vectors {
    ghost use Rattle.std.specs.Prelude.{[], ◌∷◌};
    ghost use Rattle.lists.proofs.Compared.{below-three};
    ghost use Rattle.columns.specs.Rows.{column};
    ghost use Rattle.columns.proofs.Rows.{rows-length, rows_at};
    ghost use Rattle.snapshot.specs.Entries.{entry_at, nothing};

    type Ids = VectorIds;

    fn none() -> Self {
        Vectors::default()
    }

    fn get(&self, i: usize) -> Held<VectorIds> {
        Held {
            ids: VectorIds {
                table: TableNo(self.tables[i]),
                rowset: RowsetNo(self.rowsets[i]),
                vector: VectorNo(self.vectors[i]),
            },
            added: self.added[i],
            deleted: self.deleted[i],
        }
    }

    fn set(&mut self, i: usize, held: &Held<VectorIds>) {
        self.tables[i] = held.ids.table.0;
        self.rowsets[i] = held.ids.rowset.0;
        self.vectors[i] = held.ids.vector.0;
        self.added[i] = held.added;
        self.deleted[i] = held.deleted;
    }

    fn insert(&mut self, at: usize, ids: VectorIds, epoch: u32) {
        let count = self.count;
        columns::insert(&mut self.tables, count, at, ids.table.0);
        columns::insert(&mut self.rowsets, count, at, ids.rowset.0);
        columns::insert(&mut self.vectors, count, at, ids.vector.0);
        columns::insert(&mut self.added, count, at, epoch);
        columns::insert(&mut self.deleted, count, at, 0);
        self.count = count + 1;
    }

    fn truncate(&mut self, end: usize) {
        self.count = end;
    }

    ghost sized = { λ s. rows-length (entry_at (s.tables ∷ s.rowsets ∷ s.vectors ∷ []) s.added s.deleted) s.count };

    ghost before_table = { λ s t i h. rw (rows_at (entry_at (s.tables ∷ s.rowsets ∷ s.vectors ∷ []) s.added s.deleted) s.count i nothing h) (below-three (column s.tables i) (column s.rowsets i) (column s.vectors i) t) };
}

impl Vectors {
    // Internal, as is what follows: the count is within the columns. A vector of any table has the id. One call of the library, as
    // `Tables::holds` is: sharing it would be no plainer.
    pub fn numbered(&self, vector: VectorNo) -> bool
        requires fits { self.now.count ≤ most_held }
        ensures { result ≡ any_of (λ x. eqb (get_or (by_ids x) 2 0) vector.0) (vectors_of self.now) }
    {
        self.vectors[..self.count].contains(&vector.0)
    }

    // Without those whose rowset is not among the rowsets, of which the structs of the C interface cannot say that they fit and rise.
    pub fn keep_over(&mut self, rowsets: &Rowsets)
        requires fits { self.old.count ≤ most_held }
        requires rowsets_fit { rowsets.now.count ≤ most_held }
        requires rises { ascending by_ids (rowsets_of rowsets.now) ≡ true }
        ensures told { vectors_of self.new ≡ keep (λ x. has by_ids (take 2 (by_ids x)) (rowsets_of rowsets.now)) (vectors_of self.old) }
        ensures fewer { self.new.count ≤ self.old.count }
    {
        self.retain(|held| rowsets.holds(held.ids.pair()));
    }
}
