// Cases of the version manager's calls that no list of calls as text reaches, read from the input. A line has a word and then numbers, with a
// blank before each. `!` and a letter is a call: it prints the answer, the manager that is handed back and all that was lent, and leaves
// the numbers that managers and books are made of. Any other word sets numbers, an empty line keeps them as those that each title
// starts from, and a title, which begins with `#`, is printed.
#![tactic(auto)]

use made::{ALL, Numbers};
use script::words::Words;
use status::Status;
use std::io;

mod appends;
mod calls;
mod made;
mod say;
mod shows;

// A call: its letter and its numbers, and of what the manager and the pin book are made.
#[derive(Clone, Copy)]
pub struct Call<'a> {
    pub numbers: &'a Numbers,
    pub letter: u8,
    pub fields: [u64; 6],
}

// What the next call is made of, and what each title starts from.
#[derive(Drop)]
struct Sheet {
    now: Numbers,
    first: Numbers,
}

// What comes after a line's first word.
fn after_word(s: &[u8]) -> &[u8] {
    let mut words = Words(s);
    words.next();
    words.0
}

impl Sheet {
    fn line(&mut self, rt: &impl Print, s: &[u8]) -> io::Result<()> {
        match s {
            [] | [_] => self.first = self.now,
            [b'#', ..] => {
                self.now = self.first;
                rt.write_all(s)?;
                println!(rt;)?;
            }
            [b'!', letter, ..] => {
                let mut fields = [0u64; 6];
                script::sizes(after_word(s), &mut fields);
                rt.write_all(s)?;
                let call = Call {
                    numbers: &self.now,
                    letter: *letter,
                    fields,
                };
                calls::call(rt, call)?;
            }
            [letter, digit, ..] => {
                let at = made::place(*letter, *digit);
                script::sizes(after_word(s), &mut self.now.all[at..]);
            }
        }
        Ok(())
    }
}

fn run(rt: &impl Print, s: &[u8]) -> io::Result<()> {
    let mut sheet = Sheet {
        now: Numbers { all: [0; ALL] },
        first: Numbers { all: [0; ALL] },
    };
    for s in s.split(|b| *b == b'\n') {
        sheet.line(rt, s)?;
    }
    Ok(())
}

// Each program names its own room; what the mains share is `status::answered`, and one that made the buffer too would be called by a line as long,
// and be no plainer.
fn main(rt: HostRuntime) -> Status {
    let mut buffer = [0u8; 65536];
    status::answered(&rt, &mut rt.stdin(), &mut buffer, |s| run(&rt, s))
}
