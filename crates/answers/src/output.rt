// Standard output, gathered in a buffer that is written when it is full or flushed. After a write that failed nothing more is written, so
// that what was written is the beginning of the answers.
ghost use Rattle.std.specs.Prelude.{◌≡◌, ◌+◌, ◌≤◌, ◌++◌, IsNone, IsOk, IsSome, OnErr, OnOk, Some, [], length, take};

use arrayvec::ArrayVec;
use std::io;
use std::io::{ErrorKind, Stdout, Write};

// How many bytes the buffer holds.
const ROOM: usize = 65536;

// No `BufWriter`: after a failed write it tries again, even when it is dropped.
#[derive(Drop)]
pub struct Output {
    // None once a write has failed.
    to: Option<Stdout>,
    // What waits.
    text: ArrayVec<u8, ROOM>,
}

impl Output {
    pub fn new(to: Stdout) -> Output
        ensures nothing { result.text.items ≡ [] }
        ensures open { result.to ≡ Some to }
    {
        Output {
            to: Some(to),
            text: ArrayVec::new(),
        }
    }

    // Appends what there is room for; answers how many bytes.
    fn fill(&mut self, buf: &[u8]) -> usize
        ensures within { result ≤ length buf.now }
        ensures items { self.new.text.items ≡ self.old.text.items ++ take result buf.now }
        ensures fits { length self.old.text.items + length buf.now ≤ 65536 → result ≡ length buf.now }
    {
        let n = buf.len().min(self.text.remaining_capacity());
        let _ = self.text.try_extend_from_slice(&buf[..n]);
        n
    }
}

// For `write!`. After a failed write it still takes bytes, and drops them; `flush` says that one has failed.
impl Write for Output {
    fn write(&mut self, buf: &[u8]) -> io::Result<usize> {
        if self.text.is_full() {
            let _ = self.flush();
        }
        Ok(self.fill(buf))
    }

    // Takes all. Most of what is printed is short and fits, for which the trait's loop takes longer.
    fn write_all(&mut self, buf: &[u8]) -> io::Result<()>
        ensures ok { IsOk result }
        ensures fits { length self.old.text.items + length buf.now ≤ 65536 → self.new.text.items ≡ self.old.text.items ++ buf.now }
    {
        let n = self.fill(buf);
        if n == buf.len() {
            return Ok(());
        }
        for part in buf[n..].chunks(ROOM) {
            let _ = self.flush();
            let _ = self.fill(part);
        }
        Ok(())
    }

    fn flush(&mut self) -> io::Result<()>
        ensures empty { self.new.text.items ≡ [] }
        ensures ok { OnOk result ((self.new.to ≡ self.old.to) × IsSome self.new.to) }
        ensures err { OnErr result (IsNone self.new.to) }
    {
        let written = match self.to {
            Some(mut to) => to.write_all(self.text.as_slice()),
            None => Err(io::Error::from(ErrorKind::WriteZero)),
        };
        self.text.clear();
        if written.is_err() {
            self.to = None;
        }
        written
    }
}
