// Commit, create, drop, compaction and checkpoint, into as many bytes as the first field says.
use crate::{Call, made, say};
use ids::{RowsetNo, TableNo};
use std::io;
use version_manager::Committed;

// The most that is lent.
const ROOM: usize = 192;

fn committed(rt: &impl Print, done: Committed) -> io::Result<()> {
    say::handed(
        rt,
        done,
        |made| print!(rt; " epoch {} bytes {}", made.epoch, made.length),
    )
}

// `c` commits `f[3]` operations of the batch, `i` a line, `k` creates a table, `x` drops one, `h` is a checkpoint. A name is a byte and how often it
// stands. `y` compacts a table by a rowset, and any other letter puts a new one in for it. An enum of the letters would be matched here all the same,
// and be no plainer.
pub fn call(rt: &impl Print, call: Call) -> io::Result<()> {
    let f = call.fields;
    let manager = call.numbers.manager();
    let table = TableNo(made::narrow(f[1]));
    let name = made::name(made::byte(f[1]), f[2]);
    let mut out = [b'.'; ROOM];
    let out = &mut out[..ROOM.min(f[0] as usize)];
    match call.letter {
        b'c' => committed(rt, manager.commit(made::batch(f[3], name), out))?,
        b'i' => committed(rt, manager.commit_lines(b"A,0,4\n", out))?,
        b'k' => say::handed(rt, manager.create(7, name, out), |made| {
            let id = made.table.0;
            print!(rt; " table {id} epoch {} bytes {}", made.epoch, made.length)
        })?,
        b'x' => committed(rt, manager.drop(table, out))?,
        b'h' => say::handed(rt, manager.checkpoint(out), |n| print!(rt; " bytes {n}"))?,
        letter => {
            let new = (letter != b'y').then_some(RowsetNo(made::narrow(f[3])));
            let taken = [made::narrow(f[2])];
            committed(rt, manager.compact(table, new, &taken, out))?;
        }
    }
    say::bytes(rt, out)
}
