// A delete vector: what its file holds, how that is read back, and how it masks rows.
#![tactic(auto)]

ghost use Rattle.std.specs.Prelude.{◌≤◌, length};
ghost use Rattle.delete_vector.specs.Laws.{Laws};
ghost use Rattle.delete_vector.specs.Says.{most_records, WriteSays, ReadSays, MemorySays, MaskSays};

use ids::RowNo;
use ids::refusal::Refusal;
use memory::FEW;

pub mod digits;
pub mod file;
pub mod mask;
pub mod memory;
pub mod record;

// The most records of a vector.
pub const MOST_RECORDS: usize = 4096;

// The rows' records, in the order given and with repeats, go to the front of out. Answers the count of bytes.
pub fn write_all(rows: &[u32], out: &mut [u8]) -> Result<usize, Refusal>
    ensures { WriteSays rows.now out.old result out.new }
{
    if rows.len() > MOST_RECORDS {
        return Err(Refusal::WrongCount);
    }
    let size = file::file_size(rows);
    if out.len() < size {
        return Err(Refusal::OutputTooShort);
    }
    file::put_records(rows, out, 0);
    Ok(size)
}

// The rows of a file's records, in the file's order, go to the front of rows. Only what `write_all` makes is taken. Answers the
// count of rows.
pub fn read_all(bytes: &[u8], rows: &mut [u32]) -> Result<usize, Refusal>
    ensures { ReadSays bytes.now rows.old result rows.new }
{
    let count = file::scan(bytes).map_err(Refusal::BadRecord)?;
    if count > MOST_RECORDS {
        return Err(Refusal::WrongCount);
    }
    if rows.len() < count {
        return Err(Refusal::OutputTooShort);
    }
    file::put_rows(bytes, &mut rows[..count]);
    Ok(count)
}

// Internal: at most ROOM rows, which may fall or repeat. The two arrays are made here, so that rows which rise do not pay for them, and are ROOM long,
// so that few rows pay little. Inlined, the caller would touch the room of the long ones at each call.
#[inline(never)]
fn sorted<const ROOM: usize>(rows: &[u32], out: &mut [u32]) -> Result<usize, Refusal>
    requires { (length rows.now ≤ ROOM) × (ROOM ≤ most_records) }
    ensures { MemorySays rows.now out.old result out.new }
{
    let mut ascending = [0u32; ROOM];
    let mut spare = [0u32; ROOM];
    let count = memory::ascend(rows, &mut ascending, &mut spare);
    if out.len() < count {
        return Err(Refusal::OutputTooShort);
    }
    out[..count].copy_from_slice(&ascending[..count]);
    Ok(count)
}

// The rows, lent in any order, go to the front of out ascending, each once. Answers the count of those.
pub fn in_memory(rows: &[u32], out: &mut [u32]) -> Result<usize, Refusal>
    ensures { MemorySays rows.now out.old result out.new }
{
    if rows.len() > MOST_RECORDS {
        return Err(Refusal::WrongCount);
    }
    if !memory::rises(rows) {
        return if rows.len() <= FEW {
            sorted::<FEW>(rows, out)
        } else {
            sorted::<MOST_RECORDS>(rows, out)
        };
    }
    if out.len() < rows.len() {
        return Err(Refusal::OutputTooShort);
    }
    out[..rows.len()].copy_from_slice(rows);
    Ok(rows.len())
}

// The bits of the rows are cleared; bit i stands for row offset + i.
pub fn apply_to(rows: &[u32], bits: &mut [u8], offset: RowNo) -> Result<(), Refusal>
    ensures { MaskSays rows.now bits.old offset.0 result bits.new }
{
    if rows.len() > MOST_RECORDS {
        return Err(Refusal::WrongCount);
    }
    mask::clear_all(rows, bits, offset);
    Ok(())
}

// The laws of the definitions, held to by the check.
pub fn holds()
    ensures { Laws }
{}
