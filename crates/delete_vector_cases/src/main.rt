// Cases of delete vectors: each prints its answer, and where it is short the whole lent buffer afterwards.
#![tactic(auto)]

use delete_vector::{apply_to, in_memory, read_all, write_all};
use ids::RowNo;
use ids::refusal::Refusal;
use status::Status;
use std::io;

// What is lent: bytes, printed in hexadecimal, or rows. The two lines differ in the format, which cannot be a parameter. `transaction_cases` has these
// lines too, with a sum: a crate for both would be no plainer.
trait Item: Copy {
    fn show(self, rt: &impl Print) -> io::Result<()>;
}

// The format differs, so a shared `show` would be no plainer.
impl Item for u8 {
    fn show(self, rt: &impl Print) -> io::Result<()> {
        print!(rt; " {self:02x}")
    }
}

// As above: a shared `show` would be no plainer.
impl Item for u32 {
    fn show(self, rt: &impl Print) -> io::Result<()> {
        print!(rt; " {self}")
    }
}

fn line<T: Item>(rt: &impl Print, items: &[T]) -> io::Result<()> {
    for item in items {
        item.show(rt)?;
    }
    println!(rt;)
}

// Each program prints its own words; a shared function would take all of them, and be no plainer.
fn answer(rt: &impl Print, word: &str, answer: Result<usize, Refusal>) -> io::Result<()> {
    match answer {
        Ok(n) => println!(rt; "{word},{n}"),
        Err(why) => println!(rt; "{why}"),
    }
}

// A call that is lent a buffer of its own.
// Rattle asks for this clause of each function that calls a closure, so that no other form is plainer.
fn case<T: Item, const N: usize, F: FnOnce(&mut [T]) -> Result<usize, Refusal>>(
    rt: &impl Print,
    word: &str,
    mut lent: [T; N],
    call: F,
) -> io::Result<()>
    requires { F.IsAlwaysCallable call }
{
    answer(rt, word, call(&mut lent))?;
    line(rt, &lent)
}

// Two rows' room, of which the rest is left at 9.
fn read_case(rt: &impl Print, bytes: &[u8]) -> io::Result<()> {
    case(rt, "rows", [9u32; 2], |out| read_all(bytes, out))
}

fn mask_case<const N: usize>(
    rt: &impl Print,
    rows: &[u32],
    bits: [u8; N],
    offset: RowNo,
) -> io::Result<()> {
    case(rt, "masked", bits, |out| {
        apply_to(rows, out, offset).map(|()| N)
    })
}

// One row alone, written and read back.
fn round(rt: &impl Print, row: RowNo) -> io::Result<()> {
    let rows = [row.0];
    let mut out = [0xaau8; 8];
    match write_all(&rows, &mut out) {
        Ok(n) => {
            if let Some(written) = out.get(..n) {
                line(rt, written)?;
                read_case(rt, written)?;
            }
            Ok(())
        }
        Err(r) => answer(rt, "bytes", Err(r)),
    }
}

// The published encodings.
fn encodings(rt: &impl Print) -> io::Result<()> {
    let rows = [
        0u32,
        1,
        127,
        128,
        150,
        300,
        16383,
        16384,
        2097151,
        2097152,
        268435455,
        268435456,
        u32::MAX,
    ];
    for row in rows {
        round(rt, RowNo(row))?;
    }
    Ok(())
}

fn written(rt: &impl Print) -> io::Result<()> {
    let rows = [128u32, 0, 1, 128];
    case(rt, "bytes", [0xaau8; 12], |out| write_all(&rows, out))?;
    case(rt, "bytes", [0xaau8; 14], |out| write_all(&rows, out))?;
    case(rt, "bytes", [0xaau8; 11], |out| write_all(&rows, out))?;
    case(rt, "bytes", [0xaau8; 1], |out| write_all(&[], out))
}

fn lengths(rt: &impl Print) -> io::Result<()> {
    // longer and shorter than the body
    read_case(rt, &[0x03, 0x08, 0x01])?;
    read_case(rt, &[0x01, 0x08, 0x01])?;
    read_case(rt, &[0x07, 0x08, 0xff, 0xff, 0xff, 0xff, 0x0f])?;
    read_case(rt, &[0x82, 0x00, 0x08, 0x01])?;
    // the second record's place
    read_case(rt, &[0x02, 0x08, 0x01, 0x03, 0x08, 0x01])
}

fn keys(rt: &impl Print) -> io::Result<()> {
    read_case(rt, &[0x02, 0x10, 0x01])?;
    read_case(rt, &[0x02, 0x09, 0x01])?;
    read_case(rt, &[0x04, 0x08, 0x01, 0x10, 0x01])
}

fn varints(rt: &impl Print) -> io::Result<()> {
    // explicit zero
    read_case(rt, &[0x02, 0x08, 0x00])?;
    // longer than needed
    read_case(rt, &[0x03, 0x08, 0x81, 0x00])?;
    read_case(rt, &[0x07, 0x08, 0xff, 0xff, 0xff, 0xff, 0x8f, 0x00])?;
    // unfinished
    read_case(rt, &[0x02, 0x08, 0x80])?;
    read_case(rt, &[0x03, 0x08, 0x80])?;
    read_case(rt, &[0x01, 0x08])?;
    // above 32 bits
    read_case(rt, &[0x06, 0x08, 0xff, 0xff, 0xff, 0xff, 0x1f])?;
    read_case(rt, &[0x06, 0x08, 0x80, 0x80, 0x80, 0x80, 0x10])
}

fn rooms(rt: &impl Print) -> io::Result<()> {
    read_case(rt, &[])?;
    read_case(rt, &[0x00, 0x02, 0x08, 0x01])?;
    read_case(rt, &[0x00, 0x02, 0x08, 0x01, 0x00])?;
    // 7 comes before 9
    read_case(rt, &[0x00, 0x00, 0x00, 0x02, 0x08, 0x00])
}

fn limits(rt: &impl Print) -> io::Result<()> {
    let rows = [7u32; 4097];
    let most = &rows[..4096];
    let mut out = [0u8; 12291];
    answer(rt, "bytes", write_all(most, &mut out))?;
    answer(rt, "bytes", write_all(&rows, &mut out))?;
    let mut short = [0u8; 12287];
    answer(rt, "bytes", write_all(most, &mut short))?;
    answer(rt, "bytes", write_all(&rows, &mut short))?;
    let mut back = [0u32; 4097];
    let mut files = [0u8; 4098];
    answer(rt, "rows", read_all(&files[..4096], &mut back))?;
    let mut less = [0u32; 4095];
    answer(rt, "rows", read_all(&files[..4096], &mut less))?;
    answer(rt, "rows", read_all(&files[..4097], &mut back))?;
    files[4097] = 1;
    answer(rt, "rows", read_all(&files, &mut back))?;
    mask_case(rt, most, [1; 8], RowNo(0))?;
    mask_case(rt, &rows, [1; 8], RowNo(0))
}

fn held(rt: &impl Print) -> io::Result<()> {
    let rows = [5u32, u32::MAX, 0, 5, 3, u32::MAX, 0, 4, 1];
    case(rt, "held", [9u32; 6], |out| in_memory(&rows, out))?;
    case(rt, "held", [9u32; 8], |out| in_memory(&rows, out))?;
    case(rt, "held", [9u32; 5], |out| in_memory(&rows, out))?;
    case(rt, "held", [9u32; 1], |out| in_memory(&[], out))?;
    let many = [7u32; 4097];
    case(rt, "held", [9u32; 1], |out| in_memory(&many[..4096], out))?;
    case(rt, "held", [9u32; 2], |out| in_memory(&many, out))
}

// Rows that rise already: with room to spare, with just enough, and with too little; and rows of which only the last does not rise.
fn rising(rt: &impl Print) -> io::Result<()> {
    let rows = [0u32, 1, 7, u32::MAX - 1, u32::MAX];
    case(rt, "held", [9u32; 6], |out| in_memory(&rows, out))?;
    case(rt, "held", [9u32; 5], |out| in_memory(&rows, out))?;
    case(rt, "held", [9u32; 4], |out| in_memory(&rows, out))?;
    let same = [0u32, 1, 7, u32::MAX, u32::MAX];
    case(rt, "held", [9u32; 5], |out| in_memory(&same, out))?;
    let falls = [2u32, 3, 7, 8, 6];
    case(rt, "held", [9u32; 5], |out| in_memory(&falls, out))
}

fn masks(rt: &impl Print) -> io::Result<()> {
    mask_case(rt, &[3, 5], [1; 4], RowNo(4))?;
    let rows = [0u32, u32::MAX];
    mask_case(rt, &rows, [1; 4], RowNo(u32::MAX))?;
    mask_case(rt, &rows, [1; 4], RowNo(0))?;
    mask_case(rt, &rows, [1; 4], RowNo(u32::MAX - 3))?;
    mask_case(rt, &rows, [1; 4], RowNo(u32::MAX - 2))?;
    // any order, repeats
    mask_case(rt, &[7, 4, 7, 3, 8], [1; 4], RowNo(4))?;
    mask_case(rt, &[4], [2, 255, 0, 1, 7], RowNo(3))?;
    let none = apply_to(&[4], &mut [], RowNo(3));
    answer(rt, "masked", none.map(|()| 0))
}

fn run(rt: &impl Print) -> io::Result<()> {
    encodings(rt)?;
    written(rt)?;
    lengths(rt)?;
    keys(rt)?;
    varints(rt)?;
    rooms(rt)?;
    limits(rt)?;
    held(rt)?;
    rising(rt)?;
    masks(rt)
}

fn main(rt: HostRuntime) -> Status {
    status::printed(&rt, run(&rt))
}
