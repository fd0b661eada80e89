// The row handles of a grouping, read from its line.
use crate::words::Words;
use ids::{RowNo, RowsetNo, SecondaryRowHandler};
use text::ByteClasses;
use transaction::{Handles, MOST_HANDLES};

fn handle(classes: &ByteClasses, s: &[u8]) -> Option<SecondaryRowHandler> {
    let colon = s.iter().position(|b| *b == b':')?;
    let rowset = crate::number_by(classes, &s[..colon])?;
    let row = crate::number_by(classes, &s[colon + 1..])?;
    Some(SecondaryRowHandler(RowsetNo(rowset), RowNo(row)))
}

// The place of a handle. Past the last one only a rowset that is no id has one, since it is refused before too many handles are.
fn place(k: usize, rowset: RowsetNo) -> usize {
    if rowset.is_id() {
        k
    } else {
        k.min(MOST_HANDLES - 1)
    }
}

// A blank before each handle. The count is that of all; nothing where a word is none.
pub fn handles(s: &[u8]) -> Option<Handles> {
    let classes = ByteClasses::new();
    let mut items = [SecondaryRowHandler(RowsetNo(0), RowNo(0)); MOST_HANDLES];
    for (k, word) in Words(s).enumerate() {
        let handle = handle(&classes, word)?;
        if let Some(item) = items.get_mut(place(k, handle.0)) {
            *item = handle;
        }
    }
    Some(Handles {
        items,
        count: Words(s).count(),
    })
}
