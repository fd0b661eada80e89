// What is printed of a grouping.
use crate::output::Output;
use crate::say::Digits;
use std::fmt;
use std::fmt::Display;
use std::io::Write;
use version_manager::NewVectors;

// The first `n`, or all where there are fewer, and the rest.
fn front<T>(s: &[T], n: u32) -> (&[T], &[T]) {
    let n = s.len().min(n as usize);
    s.split_at(n)
}

// A vector's rows in memory.
#[derive(Clone, Copy)]
struct Rows<'a> {
    rows: &'a [u32],
}

impl Display for Rows<'_> {
    fn fmt<W: fmt::Write>(&self, f: &mut fmt::Formatter<W>) -> fmt::Result {
        for (i, row) in self.rows.iter().enumerate() {
            if 0 < i {
                write!(f, "+")?;
            }
            write!(f, "{row}")?;
        }
        Ok(())
    }
}

// What a grouping writes: of each vector its rowset, the length of its file and its count of rows in memory; then all files one after
// another, and all rows in memory one after another.
#[derive(Clone, Copy)]
pub struct Grouping<'a> {
    pub rowsets: &'a [u32],
    pub lengths: &'a [u32],
    pub counts: &'a [u32],
    pub files: &'a [u8],
    pub rows: &'a [u32],
}

impl Grouping<'_> {
    pub fn say(&self, made: NewVectors, output: &mut Output) {
        let count = made.count;
        let _ = write!(output, "grouped,{count}");
        let mut id = made.first.0;
        let mut files = self.files;
        let mut rows = self.rows;
        let heads = self.rowsets.iter().zip(self.lengths).zip(self.counts);
        for ((rowset, length), n) in heads.take(count) {
            let (bytes, next_files) = front(files, *length);
            let (memory, next_rows) = front(rows, *n);
            let file = Digits { width: 2, bytes };
            let memory = Rows { rows: memory };
            let _ = write!(output, ",{id}:{rowset}:{file}:{memory}");
            id = id.wrapping_add(1);
            files = next_files;
            rows = next_rows;
        }
        let _ = output.write_all(b"\n");
    }
}
