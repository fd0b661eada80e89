// What is printed of answers.
ghost use Rattle.std.specs.Prelude.{◌≡◌, ◌<◌, OnOk, []};
ghost use Rattle.std.specs.Iterator.{IsFinite};

use crate::output::Output;
use arrayvec::ArrayVec;
use ids::refusal::Refusal;
use std::fmt::Display;
use std::io::Write;
use std::{fmt, str};

// Of a line that is no call.
pub const NO_CALL: Refusal = Refusal::Malformed(0);

// One of a list, as it is printed behind a comma.
pub trait Entry {
    fn say(self, output: &mut Output);
}

impl Entry for &u32 {
    fn say(self, output: &mut Output) {
        let _ = write!(output, "{self}");
    }
}

impl Entry for (&u32, &u32) {
    fn say(self, output: &mut Output) {
        let (table, rowset) = self;
        let _ = write!(output, "{table}:{rowset}");
    }
}

impl Entry for ((&u32, &u32), &u64) {
    fn say(self, output: &mut Output) {
        let ((table, rowset), vector) = self;
        let _ = write!(output, "{table}:{rowset}:{vector}");
    }
}

// A name is the first bytes of what is lent for it.
impl Entry for (((&u32, &u32), &u32), &[u8]) {
    fn say(self, output: &mut Output) {
        let (((id, shape), length), name) = self;
        let n = name.len().min(*length as usize);
        let _ = write!(output, "{id}:{shape}:");
        let _ = output.write_all(&name[..n]);
    }
}

// Internal. A word, `n`, and the first `n` entries.
pub fn list<T: Entry, I: Iterator<Item = T> + Drop>(
    word: &str,
    n: usize,
    entries: I,
    output: &mut Output,
)
    requires can { I.can_next entries }
    requires ends { IsFinite (I.remaining entries) }
{
    let _ = write!(output, "{word},{n}");
    for entry in entries.take(n) {
        let _ = output.write_all(b",");
        entry.say(output);
    }
    let _ = output.write_all(b"\n");
}

// How many digits are printed at once: a call of the formatter for each takes most of the time.
const RUN: usize = 64;

// Digits that wait.
#[derive(Drop)]
struct Run {
    text: ArrayVec<u8, RUN>,
}

fn digit(n: u8) -> u8
    requires { n < 16 }
{
    if n < 10 { b'0' + n } else { b'a' + (n - 10) }
}

impl Run {
    fn print<W: fmt::Write>(&mut self, f: &mut fmt::Formatter<W>) -> fmt::Result
        ensures { OnOk result (self.new.text.items ≡ []) }
    {
        let text = str::from_utf8(self.text.as_slice()).map_err(|_| fmt::Error)?;
        f.write_str(text)?;
        self.text.clear();
        Ok(())
    }

    fn push<W: fmt::Write>(&mut self, n: u8, f: &mut fmt::Formatter<W>) -> fmt::Result
        requires { n < 16 }
    {
        if self.text.is_full() {
            self.print(f)?;
        }
        self.text.push(digit(n));
        Ok(())
    }
}

// Each byte in `width` hex digits, or in two where it needs them, or a dash for none.
#[derive(Clone, Copy)]
pub struct Digits<'a> {
    pub width: usize,
    pub bytes: &'a [u8],
}

impl Display for Digits<'_> {
    fn fmt<W: fmt::Write>(&self, f: &mut fmt::Formatter<W>) -> fmt::Result {
        if self.bytes.is_empty() {
            return write!(f, "-");
        }
        let mut run = Run {
            text: ArrayVec::new(),
        };
        for b in self.bytes {
            for _ in 2..self.width {
                run.push(0, f)?;
            }
            if 1 < self.width || 15 < *b {
                run.push(b / 16, f)?;
            }
            run.push(b % 16, f)?;
        }
        run.print(f)
    }
}

// A file's bytes, a `\n` for each newline, or a dash for none. No Display: they need be no text.
pub fn file(bytes: &[u8], output: &mut Output) {
    let n = bytes.len();
    let _ = write!(output, "file,{n},");
    if bytes.is_empty() {
        let _ = output.write_all(b"-");
    }
    for (i, line) in bytes.split(|b| *b == b'\n').enumerate() {
        if 0 < i {
            let _ = output.write_all(b"\\n");
        }
        let _ = output.write_all(line);
    }
    let _ = output.write_all(b"\n");
}
