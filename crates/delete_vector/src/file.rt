// The file of a vector: its records one after another.
ghost use Rattle.std.specs.Prelude.{◌≡◌, ◌+◌, ◌*◌, ◌≤◌, false, length};
ghost use Rattle.lists.specs.Written.{over, Wrote};
ghost use Rattle.delete_vector.specs.Records.{records_of, records_in, is_bad, rows_in};
ghost use Rattle.delete_vector.specs.Answers.{scanned_of};
ghost use Rattle.delete_vector.specs.Says.{most_records};

use super::record;
use ids::RowNo;

// Internal: the caller has checked the count.
pub fn file_size(rows: &[u32]) -> usize
    requires { length rows.now ≤ most_records }
    ensures { (result ≡ length (records_of rows.now)) × (result ≤ 7 * length rows.now) }
{
    let mut size = 0;
    for row in rows {
        size += record::record_size(RowNo(*row));
    }
    size
}

// Internal: the caller has checked that there is room.
pub fn put_records(rows: &[u32], out: &mut [u8], at: usize) -> usize
    requires { at + length (records_of rows.now) ≤ length out.old }
    ensures { Wrote out.old at (records_of rows.now) out.new result }
{
    let mut next = at;
    for row in rows {
        next = record::put_record(RowNo(*row), out, next);
    }
    next
}

// How many records the file holds, or the place of the first bad one. Internal: the whole file is looked at.
pub fn scan(file: &[u8]) -> Result<usize, usize>
    ensures { result ≡ scanned_of 0 (records_in file.now) }
{
    let mut rest = file;
    let mut count = 0;
    // A turn takes one to seven bytes; an iterator would also have to tell where a bad record stands, and be no plainer.
    while !rest.is_empty() {
        if !record::is_record(rest) {
            return Err(file.len() - rest.len());
        }
        rest = &rest[record::size_in(rest)..];
        count += 1;
    }
    Ok(count)
}

// Internal: the caller has scanned the file, and lends a place for each record at least; what is lent beyond stays as it was.
pub fn put_rows(file: &[u8], rows: &mut [u32])
    requires { (is_bad (records_in file.now) ≡ false) × (length (rows_in (records_in file.now)) ≤ length rows.old) }
    ensures { rows.new ≡ over (rows_in (records_in file.now)) rows.old }
{
    let mut rest = file;
    for place in rows {
        if rest.is_empty() {
            break;
        }
        *place = record::row_in(rest) as u32;
        rest = &rest[record::size_in(rest)..];
    }
}
