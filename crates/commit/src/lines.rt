// Operations lent as lines. All here is internal.
ghost use Rattle.std.specs.Prelude.{◌≡◌, length};
ghost use Rattle.manifest.specs.Operations.{next_ids, operation_of};
ghost use Rattle.operations.specs.Steps.{steps_of};
ghost use Rattle.version_state.specs.State.{state_of};
ghost use Rattle.operations.specs.Ready.{Leaves};
ghost use Rattle.operations.specs.Working.{Same};
ghost use Rattle.commit.specs.Lent.{piece_said, operations_in};

use ids::refusal::Refusal;
use ids::{RowsetNo, TableNo, VectorNo};
use manifest::operation::{EpochOp, ManifestOperation};
use operations::working::Working;
use text::ByteClasses;

// A piece that is no operation becomes an `N`, which every commit refuses.
pub fn none() -> EpochOp
    ensures { operation_of result ≡ next_ids 0 0 0 }
{
    EpochOp::NextIds(TableNo(0), RowsetNo(0), VectorNo(0))
}

// What a piece of the lent bytes says: its newline ends the line; the last piece may have none, and is no line then.
fn said(classes: &ByteClasses, piece: &[u8]) -> EpochOp
    ensures { operation_of result ≡ piece_said piece.now }
{
    let line = piece.strip_suffix(b"\n");
    match line.and_then(|line| manifest::parser::parse(classes, line)) {
        Some(ManifestOperation::Epoch(op)) => op,
        _ => none(),
    }
}

// How many there are.
pub fn count(ops: &[u8]) -> usize
    ensures { result ≡ length (operations_in ops.now) }
{
    ops.split_inclusive(|b| *b == b'\n').count()
}

// Each operation in order.
pub fn steps(working: &mut Working<'_>, classes: &ByteClasses, ops: &[u8]) -> Result<(), Refusal>
    ensures told { Leaves (steps_of 0 working.old.epoch (operations_in ops.now) (state_of working.old.inner.now)) result (state_of working.new.inner.now) }
    ensures same { Same working.old working.new }
{
    for (i, piece) in ops.split_inclusive(|b| *b == b'\n').enumerate() {
        working.step(i, said(classes, piece))?;
    }
    Ok(())
}
