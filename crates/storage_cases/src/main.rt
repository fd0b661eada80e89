// Cases of reopen, read from the input. `#label` begins one, and the lines after it are its manifest's. `#label @N` lends N
// bytes of output, fewer than 18,625. A line that ends in `~` stands without that and without its newline; `*N,line` stands
// N times. Printed are the label and the rewritten manifest on one line, or `refused,number,place`.
// `%label` begins a torn append: the lines up to `%` are what stood before it, those after it the append. Reopened are what
// stood and, byte by byte, every first part of the append on top of that, the whole one last.
#![tactic(auto)]

use ids::limits::LONGEST_REWRITTEN;
use status::Status;
use std::io;
use text::ByteClasses;

mod answers;

// The case that is being read, and its manifest.
#[derive(Drop)]
struct Reading<'a> {
    // None before the first one.
    case: Option<Case>,
    // The manifest's bytes, as many as were read.
    src: &'a mut [u8],
    read: usize,
}

// Two kinds of case, and no answer beside a refusal, so that a Result would be no plainer.
#[derive(Clone, Copy)]
enum Case {
    // A reopen, lent so many bytes of output.
    Plain(usize),
    // A torn append: how many bytes the manifest had when it began.
    Torn(usize),
}

fn number(s: &[u8]) -> usize {
    ByteClasses::new()
        .read_number(s, 0, LONGEST_REWRITTEN as u64)
        .map_or(0, |(n, _)| n as usize)
}

// The number after `@`, where there is one.
fn room(s: &[u8]) -> usize {
    s.split(|b| *b == b'@')
        .nth(1)
        .map_or(LONGEST_REWRITTEN, number)
}

impl Reading<'_> {
    // What does not fit is left out.
    fn put(&mut self, s: &[u8]) {
        if let Some(rest) = self.src.get_mut(self.read..) {
            let n = s.len().min(rest.len());
            rest[..n].copy_from_slice(&s[..n]);
            self.read += n;
        }
    }

    fn put_line(&mut self, s: &[u8]) {
        match s.iter().position(|b| *b == b'~') {
            Some(end) => self.put(&s[..end]),
            None => {
                self.put(s);
                self.put(b"\n");
            }
        }
    }

    // `N,line`.
    fn repeat(&mut self, s: &[u8]) {
        if let Some((times, i)) = ByteClasses::new().read_number(s, 0, 65537)
            && let Some((_, s)) = s[i.min(s.len())..].split_first()
        {
            for _ in 0..times {
                self.put_line(s);
            }
        }
    }

    fn finish(&self, rt: &impl Print) -> io::Result<()> {
        let src = &self.src[..self.read.min(self.src.len())];
        match self.case {
            Some(Case::Plain(room)) => answers::plain(rt, src, room),
            Some(Case::Torn(before)) => answers::torn(rt, src, before),
            None => Ok(()),
        }
    }

    fn begin(&mut self, rt: &impl Print, case: Case, label: &[u8]) -> io::Result<()> {
        self.finish(rt)?;
        self.case = Some(case);
        self.read = 0;
        rt.write_all(label)?;
        print!(rt; ": ")
    }

    fn line(&mut self, rt: &impl Print, s: &[u8]) -> io::Result<()> {
        match s {
            b"#" | b"%" => {
                if let Some(Case::Torn(before)) = &mut self.case {
                    *before = self.read;
                }
            }
            [b'#', label @ ..] => self.begin(rt, Case::Plain(room(label)), label)?,
            [b'%', label @ ..] => self.begin(rt, Case::Torn(0), label)?,
            [b'*', s @ ..] => self.repeat(s),
            _ => self.put_line(s),
        }
        Ok(())
    }
}

fn run(rt: &impl Print, s: &[u8], src: &mut [u8]) -> io::Result<()> {
    let mut reading = Reading {
        case: None,
        src,
        read: 0,
    };
    status::each_line(s, |line| reading.line(rt, line))?;
    reading.finish(rt)
}

fn main(rt: HostRuntime) -> Status {
    let mut buffer = [0u8; 131072];
    let mut src = [0u8; 65540];
    status::answered(&rt, &mut rt.stdin(), &mut buffer, |s| run(&rt, s, &mut src))
}
