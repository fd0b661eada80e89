// Ids of rowsets and of delete vectors are their own keys. Two impls: with one over `HeldIds`, beside that of `LiveTable`, the check of `replay` does not
// close, since more than one impl might be meant.
ghost use Rattle.snapshot.specs.Views.{pair_ids, vector_ids};
ghost use Rattle.lists.proofs.Compared.{compared-two, compared-three};

use crate::Keyed;
use snapshot::rowsets::RowsetIds;
use snapshot::vectors::VectorIds;

impl Keyed for RowsetIds {
    type Key = RowsetIds;

    ghost key = { λ x. x };

    ghost numbers = { pair_ids };

    ghost in_order = { λ a b. compared-two a.table.0 a.rowset.0 b.table.0 b.rowset.0 };

    fn key(&self) -> RowsetIds {
        *self
    }
}

impl Keyed for VectorIds {
    type Key = VectorIds;

    ghost key = { λ x. x };

    ghost numbers = { vector_ids };

    ghost in_order = { λ a b. compared-three a.table.0 a.rowset.0 a.vector.0 b.table.0 b.rowset.0 b.vector.0 };

    fn key(&self) -> VectorIds {
        *self
    }
}
