// What a version manager holds, and what the specification's 29 judges of it.
#![tactic(auto)]

use ids::{RowsetNo, TableNo, VectorNo};
use snapshot::held::HeldColumns;
use snapshot::rowsets::Rowsets;
use snapshot::tables::Tables;
use snapshot::vectors::{VectorIds, Vectors};

pub mod limits;
pub mod sound;
pub mod stand;

ghost use Rattle.std.specs.Prelude.{◌≡◌, [], ◌∷◌};
ghost use Rattle.snapshot.specs.Views.{vector_ids};
ghost use Rattle.version_state.specs.State.{start, lengthened, Hands};
ghost use Rattle.version_state.specs.Sound.{bad_inner};

// The next id of each kind. `VectorIds` has the same fields, names one vector, and is no struct of the C interface: one type would be no plainer.
#[repr(C)]
#[derive(Clone, Copy, Default)]
pub struct NextIds {
    pub table: TableNo,
    pub rowset: RowsetNo,
    pub vector: VectorNo,
}

// `fresh` promises the state at the start, which a derived Default would not say, and be no plainer.
#[repr(C)]
#[derive(Clone, Copy)]
pub struct VersionManagerInner {
    pub epoch: u32,
    pub next: NextIds,
    pub tables: Tables,
    pub rowsets: Rowsets,
    pub vectors: Vectors,
    // The manifest's length.
    pub manifest: usize,
}

impl NextIds {
    // As the type of held ids, to compare these with them.
    pub(crate) fn ids(self) -> VectorIds
        ensures { vector_ids result ≡ self.table.0 ∷ self.rowset.0 ∷ self.vector.0 ∷ [] }
    {
        VectorIds {
            table: self.table,
            rowset: self.rowset,
            vector: self.vector,
        }
    }
}

impl VersionManagerInner {
    // Other lists than those of a replay (`Sets::new`): one function would be no plainer.
    pub fn fresh() -> VersionManagerInner
        ensures { Hands result start }
    {
        VersionManagerInner {
            epoch: 0,
            next: NextIds::default(),
            tables: Tables::none(),
            rowsets: Rowsets::none(),
            vectors: Vectors::none(),
            manifest: 0,
        }
    }

    // Whether 29 refuses the state.
    pub fn bad(&self) -> bool
        ensures { result ≡ bad_inner self.now }
    {
        self.bad_with(0)
    }

    // The same, with `bytes` more bytes in the manifest. It looks neither at shapes nor at locks.
    pub fn bad_with(&self, bytes: usize) -> bool
        ensures { result ≡ bad_inner (lengthened bytes self.now) }
    {
        self.beyond_limits(bytes)
            || self.out_of_order()
            || self.above_own()
            || self.left_behind(self.epoch)
    }
}
