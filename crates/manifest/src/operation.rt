// Operations, and the lines of a manifest as values.
ghost use Rattle.std.specs.Prelude.{◌≡◌};
ghost use Rattle.manifest.specs.Operations.{operation_of, well_formed};

use ids::limits::MOST_OPERATIONS;
use ids::name::Name;
use ids::{RowsetNo, TableNo, VectorNo};
use text::ByteClasses;

// An operation of a commit; `NextIds` stands in manifests only.
#[derive(Clone, Copy)]
pub enum EpochOp {
    // Its second is the shape.
    CreateTable(TableNo, u32, Name),
    DropTable(TableNo),
    AddRowSet(TableNo, RowsetNo),
    DeleteRowSet(TableNo, RowsetNo),
    AddDV(TableNo, RowsetNo, VectorNo),
    DeleteDV(TableNo, RowsetNo, VectorNo),
    NextIds(TableNo, RowsetNo, VectorNo),
}

// The operations of a commit: the first `count`. The count may be above the array, which a commit refuses by 6: an `ArrayVec` cannot hold such a
// count, would ask more of callers and be no plainer.
#[derive(Drop)]
pub struct Batch {
    pub changes: [EpochOp; MOST_OPERATIONS],
    pub count: usize,
}

// A line of a manifest.
#[derive(Clone, Copy)]
pub enum ManifestOperation {
    Begin,
    End,
    // It ends in `!`: an append broke off in it, or just before it.
    Torn,
    Epoch(EpochOp),
}

impl EpochOp {
    pub fn well_formed(self, classes: &ByteClasses) -> bool
        ensures { result ≡ well_formed (operation_of self) }
    {
        match self {
            EpochOp::CreateTable(t, _, name) => t.is_id() && classes.is_name(name.as_slice()),
            EpochOp::DropTable(t) => t.is_id(),
            EpochOp::AddRowSet(t, r) | EpochOp::DeleteRowSet(t, r) => t.is_id() && r.is_id(),
            EpochOp::AddDV(t, r, v) | EpochOp::DeleteDV(t, r, v) => {
                t.is_id() && r.is_id() && v.is_id()
            }
            EpochOp::NextIds(_, _, _) => true,
        }
    }
}
