// One delete record: its size, its bytes written, compared and read.
ghost use Rattle.std.specs.Prelude.{◌≡◌, ◌+◌, ◌≤◌, min, length, true};
ghost use Rattle.lists.specs.Written.{Wrote};
ghost use Rattle.delete_vector.specs.Encoding.{varint, value_of};
ghost use Rattle.delete_vector.specs.Sizes.{significant_bits, varint_size, record_size};
ghost use Rattle.delete_vector.specs.Records.{row_limit, record_of, starts_with, row_in, is_record, size_in};

use ids::RowNo;

// Row numbers are below this.
pub const ROW_LIMIT: u64 = 4294967296;

// The byte that begins a record's field: field 1, of wire type 0.
const KEY: u8 = 8;

fn significant_bits(row: RowNo) -> usize
    ensures { result ≡ significant_bits row.0 }
{
    (u32::BITS - row.0.leading_zeros()) as usize
}

// The size of the row's number as a varint, which has a byte for each seven bits begun.
pub fn varint_size(row: RowNo) -> usize
    ensures { (result ≡ varint_size row.0) × (result ≤ 5) }
{
    if row.0 == 0 {
        1
    } else {
        // `div_ceil` was measured slower.
        (significant_bits(row) - 1) / 7 + 1
    }
}

// The size of the row's record: for row 0 the length byte alone, else the tag byte and the varint, too.
pub fn record_size(row: RowNo) -> usize
    ensures { (result ≡ record_size row.0) × (result ≤ 7) }
{
    if row.0 == 0 {
        return 1;
    }
    2 + varint_size(row)
}

// Internal: the caller has checked that there is room.
fn put_varint(n: u32, out: &mut [u8], at: usize) -> usize
    requires { at + length (varint n) ≤ length out.old }
    ensures { Wrote out.old at (varint n) out.new result }
{
    let mut left = n;
    let mut i = at;
    // A `while`: how many groups there are shows only as the number runs out, so a `for` would be no plainer.
    while left >= 128 {
        out[i] = (128 + left % 128) as u8;
        left /= 128;
        i += 1;
    }
    out[i] = left as u8;
    i + 1
}

// Internal: the caller has checked that there is room.
pub fn put_record(row: RowNo, out: &mut [u8], at: usize) -> usize
    requires { at + length (record_of row.0) ≤ length out.old }
    ensures { Wrote out.old at (record_of row.0) out.new result }
{
    if row.0 == 0 {
        out[at] = 0;
        return at + 1;
    }
    out[at] = (1 + varint_size(row)) as u8;
    out[at + 1] = KEY;
    put_varint(row.0, out, at + 2)
}

// Whether the file begins with what the writer makes of the number.
fn holds_varint(file: &[u8], n: u32) -> bool
    ensures { result ≡ starts_with (varint n) file.now }
{
    let mut left = n;
    for byte in file {
        if left < 128 {
            return u32::from(*byte) == left;
        }
        if u32::from(*byte) != 128 + left % 128 {
            return false;
        }
        left /= 128;
    }
    false
}

// Whether the file begins with what the writer makes of the row. Byte by byte, since each says whether the next is read: one expression would be no
// plainer.
pub fn holds_record(file: &[u8], row: RowNo) -> bool
    ensures { result ≡ starts_with (record_of row.0) file.now }
{
    let [size, field @ ..] = file else {
        return false;
    };
    if row.0 == 0 {
        return *size == 0;
    }
    if usize::from(*size) != 1 + varint_size(row) {
        return false;
    }
    let [key, groups @ ..] = field else {
        return false;
    };
    *key == KEY && holds_varint(groups, row.0)
}

// The number that the groups stand for, or ROW_LIMIT where that is smaller.
fn value_in(groups: &[u8]) -> u64
    ensures { result ≡ min (value_of groups.now) row_limit }
{
    let mut value: u64 = 0;
    for group in groups.iter().rev() {
        value = (value * 128 + u64::from(*group % 128)).min(ROW_LIMIT);
    }
    value
}

// The row that the file's first record has room for, or ROW_LIMIT where that is smaller.
pub fn row_in(file: &[u8]) -> u64
    ensures { result ≡ min (row_in file.now) row_limit }
{
    let [size, rest @ ..] = file else {
        return 0;
    };
    let n = rest.len().min(usize::from(*size));
    match &rest[..n] {
        [_, groups @ ..] => value_in(groups),
        [] => 0,
    }
}

// Whether the file begins with what the writer makes of a row.
pub(crate) fn is_record(file: &[u8]) -> bool
    ensures { result ≡ is_record file.now }
{
    let Ok(row) = u32::try_from(row_in(file)) else {
        return false;
    };
    holds_record(file, RowNo(row))
}

// The size of the file's first record, which its length byte tells.
pub(crate) fn size_in(file: &[u8]) -> usize
    requires { is_record file.now ≡ true }
    ensures { result ≡ size_in file.now }
{
    1 + usize::from(file[0])
}
