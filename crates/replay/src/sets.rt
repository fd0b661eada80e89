// What a replay has read so far: the live tables, rowsets and vectors, each in a sorted list, and the next ids.
ghost use Rattle.std.specs.Prelude.{◌≡◌, ◌∷◌, [], true, ⊤};
ghost use Rattle.lists.proofs.Compared.{compared-one};
ghost use Rattle.lists.specs.Keyed.{ascending};
ghost use Rattle.snapshot.specs.Views.{pair_ids, vector_ids};

use ids::TableNo;
use ids::limits::{MOST_HELD, MOST_OPERATIONS, MOST_TABLES};
use ids::name::Name;
use replay_lists::{Keyed, SortedList};
use snapshot::rowsets::RowsetIds;
use snapshot::vectors::VectorIds;
use std::alloc::AllocError;
use version_state::NextIds;

// A list has room for what may be held, and for a frame's operations on top.
const TABLE_ROOM: usize = MOST_TABLES + MOST_OPERATIONS;

const HELD_ROOM: usize = MOST_HELD + MOST_OPERATIONS;

#[derive(Clone, Copy, Default)]
pub struct LiveTable {
    pub table: TableNo,
    pub shape: u32,
    pub name: Name,
}

impl Keyed for LiveTable {
    type Key = TableNo;

    ghost key = { λ x. x.table };

    ghost numbers = { λ k. k.0 ∷ [] };

    ghost in_order = { λ a b. compared-one a.0 b.0 };

    fn key(&self) -> TableNo {
        self.table
    }
}

// The live tables, rowsets and vectors, each ascending by its ids, and the next ids. How much room is left is no field: a frame's
// operations take it up one by one, and its `E` refuses where too little is left for another frame. `new` is no
// Default: callers go by the lists being empty and having room, and Default would be no plainer.
#[derive(Drop)]
pub struct Sets {
    pub tables: SortedList<LiveTable, TABLE_ROOM>,
    pub rowsets: SortedList<RowsetIds, HELD_ROOM>,
    pub vectors: SortedList<VectorIds, HELD_ROOM>,
    pub next: NextIds,
    ghost tables_rise: { ascending (λ x. x.table.0 ∷ []) tables ≡ true },
    ghost rowsets_rise: { ascending pair_ids rowsets ≡ true },
    ghost vectors_rise: { ascending vector_ids vectors ≡ true },
}

// By hand: a type that holds a fact derives Clone with Copy alone, and no `ArrayVec` is Copy. It asks for no memory.
impl Clone for Sets {
    ghost is_clone = { λ s t. t ≡ s };

    ghost is_infallible = { λ _. ⊤ };

    fn clone(&self) -> Result<Sets, AllocError> {
        Ok(Sets {
            tables: self.tables.clone()?,
            rowsets: self.rowsets.clone()?,
            vectors: self.vectors.clone()?,
            next: self.next,
        })
    }
}

impl Sets {
    ghost use Rattle.ids.specs.Limits.{most_operations};
    ghost use Rattle.replay.specs.Replay.{at_start};
    ghost use Rattle.replay.specs.Sets.{state_in, RoomFor};

    // Other lists than those of `VersionManagerInner::fresh`: one function would be no plainer.
    pub fn new() -> Sets
        ensures start { state_in result ≡ at_start.state }
        ensures room { RoomFor most_operations result }
    {
        Sets {
            tables: SortedList::new(),
            rowsets: SortedList::new(),
            vectors: SortedList::new(),
            next: NextIds::default(),
        }
    }
}
