// For each line of its input: the class of its first byte, the line as a number of up to 64 bits and as an id of 32 bits, each
// written anew with its length, and whether it is a name.
#![tactic(auto)]

use status::Status;
use std::io;
use text::ByteClasses;

fn show_number(rt: &impl Print, classes: &ByteClasses, s: &[u8], limit: u64) -> io::Result<()> {
    match classes.read_number(s, 0, limit) {
        Some((n, end)) if end == s.len() => {
            let mut out = [0u8; 20];
            let k = text::put_number(&mut out, 0, n);
            if let Some(written) = out.get(..k) {
                rt.write_all(written)?;
            }
            let length = text::number_length(n);
            print!(rt; ":{length}")
        }
        _ => print!(rt; "-"),
    }
}

fn show(rt: &impl Print, classes: &ByteClasses, s: &[u8]) -> io::Result<()> {
    match s.first() {
        Some(b) => {
            let class = classes.class_of(*b);
            print!(rt; "{class} ")?;
        }
        None => print!(rt; "- ")?,
    }
    show_number(rt, classes, s, u64::MAX)?;
    print!(rt; " ")?;
    show_number(rt, classes, s, 4294967294)?;
    if classes.is_name(s) {
        println!(rt; " name")
    } else {
        println!(rt; " -")
    }
}

fn show_all(rt: &impl Print, s: &[u8]) -> io::Result<()> {
    let classes = ByteClasses::new();
    status::each_line(s, |line| show(rt, &classes, line))
}

// Each program names its own room; what the mains share is `status::answered`, and one that made the buffer too would be called by a line as long,
// and be no plainer.
fn main(rt: HostRuntime) -> Status {
    let mut buffer = [0u8; 4096];
    status::answered(&rt, &mut rt.stdin(), &mut buffer, |s| show_all(&rt, s))
}
