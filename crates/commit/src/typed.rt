// The operations of a typed batch, turned into lines. All here is internal.
ghost use Rattle.std.specs.Prelude.{◌≡◌, map, ◌≤◌};
ghost use Rattle.ids.specs.Limits.{most_operations};
ghost use Rattle.manifest.specs.Operations.{operation_of, batch_of};
ghost use Rattle.frames.specs.Frames.{texts_of};
ghost use Rattle.commit.specs.Lent.{as_line};

use frames::Lines;
use ids::limits::LINE_BYTES;
use manifest::operation::{Batch, EpochOp};
use text::ByteClasses;

// An operation that is not well formed becomes an `N`, which is refused at the same place, by the same number.
fn as_line(classes: &ByteClasses, change: EpochOp) -> EpochOp
    ensures { operation_of result ≡ as_line (operation_of change) }
{
    if change.well_formed(classes) {
        return change;
    }
    crate::lines::none()
}

// The lines, in the place of others, in an array that has room for those of any batch.
pub fn put_lines(lines: &mut Lines<LINE_BYTES>, batch: Batch)
    requires { batch.count ≤ most_operations }
    ensures { lines.new ≡ texts_of (map as_line (batch_of batch)) }
{
    let classes = ByteClasses::new();
    lines.clear();
    for change in &batch.changes[..batch.count] {
        lines.put_line(as_line(&classes, *change));
    }
}
