// What a reopen answers, and what it left in the lent output.
use ids::limits::LONGEST_REWRITTEN;
use ids::refusal::Refusal;
use std::io;

// The lines written, a blank for each newline but the last; and `altered` if another byte is not as it was lent.
fn answer(rt: &impl Print, answer: Result<usize, Refusal>, out: &[u8]) -> io::Result<()> {
    let n = match answer {
        Ok(n) => n.min(out.len()),
        Err(refusal) => {
            print!(rt; "{refusal}")?;
            0
        }
    };
    let (text, rest) = out.split_at(n);
    let text = text.strip_suffix(b"\n").unwrap_or(text);
    for (i, line) in text.split(|b| *b == b'\n').enumerate() {
        if 0 < i {
            rt.write_all(b" ")?;
        }
        rt.write_all(line)?;
    }
    if rest.iter().any(|b| *b != b'.') {
        rt.write_all(b" altered")?;
    }
    println!(rt;)
}

pub fn plain(rt: &impl Print, src: &[u8], room: usize) -> io::Result<()> {
    let mut out = [b'.'; LONGEST_REWRITTEN];
    if let Some(out) = out.get_mut(..room) {
        let opened = storage::bootstrap(src, out);
        answer(rt, opened.answer, out)?;
    }
    Ok(())
}

// Whether a reopen of src answers and writes the same.
fn as_before(src: &[u8], answer: Result<usize, Refusal>, first: &[u8]) -> bool {
    let mut out = [b'.'; LONGEST_REWRITTEN];
    let opened = storage::bootstrap(src, &mut out);
    opened.answer == answer && first == out.as_slice()
}

// `before` is how many bytes stood before the append.
pub fn torn(rt: &impl Print, src: &[u8], before: usize) -> io::Result<()> {
    if let Some(stood) = src.get(..before) {
        let mut first = [b'.'; LONGEST_REWRITTEN];
        let opened = storage::bootstrap(stood, &mut first);
        let answered = opened.answer;
        let cut = (before..src.len()).position(|end| !as_before(
            src.get(..end).unwrap_or(src),
            answered,
            &first,
        ));
        match cut {
            Some(cut) => println!(rt; "cut {cut} differs")?,
            None => {
                print!(rt; "{} cuts as before\n  before: ", src.len() - before)?;
                answer(rt, answered, &first)?;
            }
        }
    }
    print!(rt; "  after: ")?;
    plain(rt, src, LONGEST_REWRITTEN)
}
