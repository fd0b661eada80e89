// Lists of calls as text: reads one call a line from standard input, and answers each by a line. It holds the manager, the
// pin book and the manifest file's bytes, and lends them to each call.
#![tactic(auto)]

use answers::call::Call;
use answers::output::Output;
use answers::say::NO_CALL;
use ids::refusal::Refusal;
use status::Status;
use std::io;
use std::io::{ErrorKind, Read, Write};
use version_manager::VersionManager;
use world::{ENOUGH, File, Host, Line, World};

mod appends;
mod changes;
mod host;
mod rewrites;
mod world;

impl World<'_> {
    // A match: the calls differ in their arguments, so a table of functions would be no plainer.
    fn call(&mut self, word: &[u8], call: Call) -> Result<(), Refusal> {
        match word {
            b"fresh" => self.fresh(call),
            b"checkpoint" => self.checkpoint(call),
            b"reopen" => self.reopen(call),
            b"report" => self.report(call),
            b"commit" => self.commit(call),
            b"create" => self.create(call),
            b"drop" => self.drop(call),
            b"compact" => self.compact(call),
            b"draw" => self.draw(call),
            b"vacuum" => self.vacuum(call),
            b"lock" => self.with_lock(call, |m, table| m.lock(table), "locked"),
            b"unlock" => self.with_lock(call, |m, table| m.unlock(table), "unlocked"),
            b"group" => self.group(call),
            b"pin" => self.pin(call),
            b"unpin" => self.unpin(call),
            b"show" => call.show(self.manager, self.book),
            b"select" => call.select(self.manager),
            b"state" => call.state(self.manager),
            b"file" => self.tell(call),
            b"encode" => call.encode(),
            b"decode" => call.decode(self.scratch),
            b"mask" => call.mask(self.scratch),
            b"room" => self.room(call),
            b"cut" => self.cut(call),
            b"stale" => self.stale(call),
            b"write" => self.write(call),
            _ => Err(NO_CALL),
        }
    }

    // A line uses the room up; those that stand for the host hand it on.
    fn answered(&mut self, s: &[u8], output: &mut Output) -> Result<(), Refusal> {
        let room = self.host.room;
        self.host.room = ENOUGH;
        let (word, rest) = script::cut_word(s);
        self.call(word, Call { rest, room, output })
    }

    fn line(&mut self, s: &[u8], output: &mut Output) {
        if s.is_empty() || s.starts_with(b"#") {
            return;
        }
        if let Err(why) = self.answered(s, output) {
            let _ = writeln!(output, "{why}");
        }
    }

    // The last may have no newline.
    fn lines(&mut self, s: &[u8], output: &mut Output) {
        for s in s.split(|b| *b == b'\n') {
            self.line(s, output);
        }
    }

    // A line that fills the buffer is refused once, unless it is a remark. What comes of it then is made a remark (`#`), so that it is skipped.
    // Answers how many bytes stay.
    fn too_long(&mut self, input: &mut Line, output: &mut Output) -> usize {
        if !input.starts_with(b"#") {
            let _ = writeln!(output, "{NO_CALL}");
            self.host.room = ENOUGH;
        }
        input[0] = b'#';
        1
    }

    // After a read: answers each whole line, and at the end of the input the last one too. Moves what is left to the front; answers its length.
    fn turn(&mut self, input: &mut Line, have: usize, more: usize, output: &mut Output) -> usize {
        let there = &input[..more.min(input.len())];
        let whole = if more <= have {
            there.len()
        } else {
            script::last_line(there)
        };
        self.lines(&there[..whole], output);
        let left = script::shift(input, whole, more);
        if left < input.len() {
            left
        } else {
            self.too_long(input, output)
        }
    }

    // Reads the input to its end. A read may wait, so all answers are written first. A proved loop has to end, and nothing says that the input does:
    // the bound is above any input's length.
    fn run(
        &mut self,
        from: &mut impl Read,
        input: &mut Line,
        output: &mut Output,
    ) -> io::Result<()> {
        let mut have: usize = 0;
        for _ in 0..u64::MAX {
            output.flush()?;
            let more = status::read(from, input, have)?;
            let left = self.turn(input, have, more, output);
            if more <= have {
                return Ok(());
            }
            have = left;
        }
        Err(io::Error::from(ErrorKind::FileTooLarge))
    }
}

// After a failed write nothing more was read.
fn ending(rt: &impl Eprint, whole: io::Result<()>, output: &mut Output) -> Status {
    if output.flush().is_err() {
        return status::unwritable(rt);
    }
    match whole {
        Ok(()) => Status::Done,
        Err(_) => status::unreadable(rt),
    }
}

fn main(rt: HostRuntime) -> Status {
    // The longest line, and its newline.
    let mut input: Line = script::buffer();
    let mut scratch: Line = script::buffer();
    // As many bytes as a line can write to a file, and as a manager appends to it.
    let mut file: File = script::buffer();
    let mut old: File = script::buffer();
    let mut output = Output::new(rt.stdout());
    let opened = VersionManager::fresh();
    let mut world = World {
        manager: opened.manager,
        book: opened.book,
        host: Host::whole(0),
        file: &mut file,
        old: &mut old,
        scratch: &mut scratch,
    };
    let whole = world.run(&mut rt.stdin(), &mut input, &mut output);
    ending(&rt, whole, &mut output)
}
