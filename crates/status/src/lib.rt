// How a program ended, as its exit status, and input and output that may fail.
#![tactic(auto)]

ghost use Rattle.std.specs.Prelude.{◌≡◌, ◌≢◌, ◌≤◌, IfOk, OnErr, OnOk, length};
ghost use Rattle.std.specs.Process.{exit_status};
ghost use Rattle.status.specs.Code.{code};
ghost use Rattle.status.specs.declared.Status.TheVariants.{Done, Refused, Failed};

use std::io;
use std::io::{ErrorKind, Read};
use std::process::{ExitCode, Termination};

#[derive(Clone, Copy)]
pub enum Status {
    Done,
    Refused,
    // It could not read or write.
    Failed,
}

// So that `main` may return it.
impl Termination for Status {
    fn report<R: Eprint>(self, _rt: &R) -> ExitCode
        ensures { exit_status result ≡ code self }
    {
        ExitCode::from(self as u8)
    }
}

// A function for each text, so that all programs print the same: with the text as a parameter it would be no plainer.
pub fn unreadable(rt: &impl Eprint) -> Status
    ensures { result ≡ Failed }
{
    let _ = rt.eprintln("standard input could not be read");
    Status::Failed
}

// As above: with the text as a parameter it would be no plainer.
pub fn unwritable(rt: &impl Eprint) -> Status
    ensures { result ≡ Failed }
{
    let _ = rt.eprintln("standard output could not be written");
    Status::Failed
}

// How a program that refuses nothing ended, by whether all of its answers were written.
pub fn printed(rt: &impl Eprint, all: io::Result<()>) -> Status
    ensures ok { OnOk all (result ≡ Done) }
    ensures err { OnErr all (result ≡ Failed) }
{
    match all {
        Ok(()) => Status::Done,
        Err(_) => unwritable(rt),
    }
}

// Reads once into the buffer, after its first `filled` bytes; answers how many are filled then. The whole buffer is lent, since the answer counts
// what was there: its rest alone would be no plainer.
pub fn read(from: &mut impl Read, buf: &mut [u8], filled: usize) -> io::Result<usize>
    ensures { IfOk result (λ n. n ≤ length buf.new) }
{
    let Some(rest) = buf.get_mut(filled..) else {
        return Err(io::Error::from(ErrorKind::InvalidInput));
    };
    let n = from.read(rest)?;
    Ok(filled + n)
}

// The input up to its end, or as much of it as the buffer holds.
pub fn read_all(from: &mut impl Read, buf: &mut [u8]) -> io::Result<usize>
    ensures { IfOk result (λ n. n ≤ length buf.new) }
{
    let mut filled: usize = 0;
    // No `read_to_end`, which asks for memory, and there is no heap, nor `read_exact`, which does not say how much there was.
    while filled < buf.len() {
        let n = read(from, buf, filled)?;
        if n <= filled {
            break;
        }
        filled = n;
    }
    Ok(filled)
}

// Internal, as is what follows. Shows each complete line, without its newline; what comes after the last newline is none.
// Rattle asks for this clause of each function that calls a closure, so that no other form is plainer.
pub fn each_line<F: FnMut(&[u8]) -> io::Result<()> + Drop>(s: &[u8], mut show: F) -> io::Result<()>
    requires { F.IsAlwaysCallable show }
{
    let lines = s.split_inclusive(|b| *b == b'\n');
    for line in lines.filter_map(|line| line.strip_suffix(b"\n")) {
        show(line)?;
    }
    Ok(())
}

// What a program that refuses nothing answers to its input, as much of it as the buffer holds.
// Rattle asks for this clause of each function that calls a closure, so that no other form is plainer.
pub fn answered<F: FnOnce(&[u8]) -> io::Result<()> + Drop>(
    rt: &impl Eprint,
    from: &mut impl Read,
    buf: &mut [u8],
    run: F,
) -> Status
    requires { F.IsAlwaysCallable run }
    ensures { result ≢ Refused }
{
    match read_all(from, buf) {
        Ok(n) => printed(rt, run(&buf[..n])),
        Err(_) => unreadable(rt),
    }
}
