// The operations of a commit, read from its line.
use crate::words::Words;
use ids::limits::MOST_OPERATIONS;
use ids::{RowsetNo, TableNo, VectorNo};
use manifest::operation::{Batch, EpochOp, ManifestOperation};
use text::ByteClasses;

// What stands for a word that is no operation: commit refuses it by 2 at its place. `commit` has such a one too, private to it: made
// public for this alone it would be no plainer.
const NO_CHANGE: EpochOp = EpochOp::NextIds(TableNo(0), RowsetNo(0), VectorNo(0));

// `commit` has such a function too, private to it, for a line that still ends in a newline: one for both would be told which, and be no plainer.
fn change(classes: &ByteClasses, s: &[u8]) -> EpochOp {
    match manifest::parser::parse(classes, s) {
        Some(ManifestOperation::Epoch(op)) => op,
        _ => NO_CHANGE,
    }
}

// A blank before each operation. The count is that of all; the places hold the first that a commit may have.
pub fn batch(s: &[u8]) -> Batch {
    let classes = ByteClasses::new();
    let mut changes = [NO_CHANGE; MOST_OPERATIONS];
    for (place, word) in changes.iter_mut().zip(Words(s)) {
        *place = change(&classes, word);
    }
    Batch {
        changes,
        count: Words(s).count(),
    }
}
