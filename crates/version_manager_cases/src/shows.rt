// Vacuum, shows and selection, into slices whose lengths the fields say.
use crate::{Call, made, say};
use ids::TableNo;
use std::io;

// `u` vacuum, `p`, `v` and `t` the pairs, vectors and tables of an epoch, `s` a selection of a table, with target 2 and sizes of 1. The fields are
// the epoch or the table, and the lengths of what is lent: three of 32 bits, then 64 bits, then bytes. An enum of the letters would be matched here
// all the same, and be no plainer.
pub fn call(rt: &impl Print, call: Call) -> io::Result<()> {
    let f = call.fields;
    let manager = call.numbers.manager();
    let book = call.numbers.book();
    let first = made::narrow(f[0]);
    let mut a = [66u32; 8];
    let mut b = [77u32; 8];
    let mut c = [88u32; 8];
    let mut vectors = [1u64; 8];
    let mut names = [b'.'; 80];
    let a = &mut a[..8.min(f[1] as usize)];
    let b = &mut b[..8.min(f[2] as usize)];
    let c = &mut c[..8.min(f[3] as usize)];
    let vectors = &mut vectors[..8.min(f[4] as usize)];
    let names = &mut names[..80.min(f[5] as usize)];
    match call.letter {
        b'u' => say::handed(
            rt,
            manager.vacuum(book, a, b),
            |n| print!(rt; " listed {n}"),
        )?,
        b'p' => say::count(rt, "shown", manager.show_pairs(book, first, a, b))?,
        b'v' => say::count(
            rt,
            "shown",
            manager.show_vectors(book, first, a, b, vectors),
        )?,
        b't' => say::count(
            rt,
            "shown",
            manager.show_tables(book, first, a, b, c, names),
        )?,
        _ => say::count(rt, "chosen", manager.select(TableNo(first), 2, vectors, a))?,
    }
    say::numbers(rt, a)?;
    say::numbers(rt, b)?;
    say::numbers(rt, c)?;
    say::numbers(rt, vectors)?;
    say::bytes(rt, names)
}
