// A mask, one byte a bit, and what a vector's rows clear of it.
ghost use Rattle.std.specs.Prelude.{◌≡◌, ◌+◌, ◌%◌, [], ◌∷◌};
ghost use Rattle.delete_vector.specs.Records.{row_limit};
ghost use Rattle.delete_vector.specs.Memory.{is_in};
ghost use Rattle.delete_vector.specs.Mask.{masked};

use super::record::ROW_LIMIT;
use ids::RowNo;

// The row number that bit i has at the offset, as RisingLight's cast cuts it.
pub fn row_at(offset: RowNo, i: usize) -> RowNo
    ensures { result.0 ≡ (offset.0 + i) % row_limit }
{
    let low = (i % ROW_LIMIT as usize) as u32;
    RowNo(offset.0.wrapping_add(low))
}

// What one row clears: the bit that has its row number, unless that number has wrapped, as it has for every row below the offset.
fn clear(bits: &mut [u8], offset: RowNo, row: RowNo)
    ensures { bits.new ≡ masked (is_in (row.0 ∷ [])) offset.0 bits.old }
{
    let i = row.0.wrapping_sub(offset.0) as usize;
    if i >= bits.len() {
        return;
    }
    let here = row_at(offset, i);
    if here < offset {
        return;
    }
    bits[i] = 0;
}

// Internal: one pass over the rows. The three are as C lends them, and go no further together.
pub fn clear_all(rows: &[u32], bits: &mut [u8], offset: RowNo)
    ensures { bits.new ≡ masked (is_in rows.now) offset.0 bits.old }
{
    for row in rows {
        clear(bits, offset, RowNo(*row));
    }
}
