// Reads a manifest on standard input and writes the rewritten one, or a line `refused,number,place`.
#![tactic(auto)]

use ids::limits::{LONGEST_MANIFEST, LONGEST_REWRITTEN};
use status::Status;
use std::io;
use std::io::Input;

// What was written decides: all of it, or not.
fn written(rt: &impl Eprint, all: io::Result<()>, status: Status) -> Status {
    match all {
        Ok(()) => status,
        Err(_) => status::unwritable(rt),
    }
}

fn reopen(rt: &(impl Print + Eprint), src: &[u8], out: &mut [u8]) -> Status {
    let opened = storage::bootstrap(src, out);
    match opened.answer {
        Ok(n) => written(rt, rt.write_all(&out[..n]), Status::Done),
        Err(refusal) => written(rt, println!(rt; "{refusal}"), Status::Refused),
    }
}

// Not `status::answered`: a manifest that is refused has an exit status of its own, so that it would be no plainer.
fn main(rt: HostRuntime) -> Status {
    // One byte more than a manifest may have: of a longer one enough is read to be refused.
    let mut src = [0u8; LONGEST_MANIFEST + 1];
    let mut out = [0u8; LONGEST_REWRITTEN];
    match status::read_all(&mut rt.reader(), &mut src) {
        Ok(n) => reopen(&rt, &src[..n], &mut out),
        Err(_) => status::unreadable(&rt),
    }
}
