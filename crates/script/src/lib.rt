// Words, numbers, operations, handles and runs of bytes of a line of text, read from lent slices.
#![tactic(auto)]

ghost use Rattle.std.specs.Prelude.{◌≡◌, ◌+◌, ◌≤◌, ◌++◌, IfSome, length};

use ids::limits::{LARGEST_32, LONGEST_NAME};
use ids::name::Name;
use text::ByteClasses;
use words::Words;

pub mod batches;
pub mod handles;
pub mod words;

// What stands before the first blank, and the rest from it on.
pub fn cut_word(s: &[u8]) -> (&[u8], &[u8])
    ensures whole { s.now ≡ result.0.now ++ result.1.now }
    ensures rest { length result.1.now ≤ length s.now }
{
    let end = s.iter().position(|b| *b == b' ').unwrap_or(s.len());
    s.split_at(end)
}

// The place after the last newline, or 0.
pub fn last_line(s: &[u8]) -> usize
    ensures { result ≤ length s.now }
{
    s.iter().rposition(|b| *b == b'\n').map_or(0, |i| i + 1)
}

// A word that is a number which fits.
pub fn number<T: TryFrom<u64>>(s: &[u8]) -> Option<T>
where
    T::Error: Drop,
{
    number_by(&ByteClasses::new(), s)
}

fn number_by<T: TryFrom<u64>>(classes: &ByteClasses, s: &[u8]) -> Option<T>
where
    T::Error: Drop,
{
    match classes.read_number(s, 0, u64::MAX)? {
        (n, end) if end == s.len() => T::try_from(n).ok(),
        _ => None,
    }
}

// A blank and then one word, such a number.
pub fn one<T: TryFrom<u64>>(s: &[u8]) -> Option<T>
where
    T::Error: Drop,
{
    number(s.strip_prefix(b" ")?)
}

// All after a blank, as a table's name; the empty name, which is refused, where it is too long.
pub fn name(s: &[u8]) -> Name {
    match s {
        [_, name @ ..] if name.len() <= LONGEST_NAME => Name::of(name),
        _ => Name::default(),
    }
}

// Puts `n` at place `k`. Numbers past the end share the last place: it has the newest while they rise, and else the largest value, which is no id. So
// a call that gets too many ids still sees whether they rise.
fn put(out: &mut [u32], k: usize, n: u32) {
    if k < out.len() {
        out[k] = n;
    } else if let Some(last) = out.last_mut() {
        *last = if *last < n { n } else { LARGEST_32 };
    }
}

// A blank before each word, and every word a number, which is put where it belongs: how many there are.
// Rattle asks for this clause of each function that calls a closure, so that no other form is plainer.
fn each<T: TryFrom<u64>, F: FnMut(usize, T)>(s: &[u8], mut put: F) -> Option<usize>
where
    T::Error: Drop,
    requires { F.IsAlwaysCallable put }
{
    let classes = ByteClasses::new();
    for (k, word) in Words(s).enumerate() {
        put(k, number_by(&classes, word)?);
    }
    Some(Words(s).count())
}

// 32-bit numbers.
pub fn numbers(s: &[u8], out: &mut [u32]) -> Option<usize> {
    each(s, |k, n| put(out, k, n))
}

// 64-bit numbers. Those that come after the last place are counted and not kept.
pub fn sizes(s: &[u8], out: &mut [u64]) -> Option<usize> {
    each(s, |k, n| {
        if let Some(place) = out.get_mut(k) {
            *place = n;
        }
    })
}

// The byte that two hex digits say.
fn hex_byte(high: u8, low: u8) -> Option<u8> {
    let high = char::from(high).to_digit(16)?;
    let low = char::from(low).to_digit(16)?;
    u8::try_from(16 * high + low).ok()
}

// A run as it is written: at least one byte, and a dash where it is empty.
fn run(s: &[u8]) -> Option<&[u8]> {
    match s {
        b"" => None,
        b"-" => Some(b""),
        _ => Some(s),
    }
}

// A run of bytes, two hex digits each.
pub fn hex(s: &[u8], out: &mut [u8]) -> Option<usize>
    ensures { IfSome result (λ n. n ≤ length out.new) }
{
    let s = run(s)?;
    if s.len() % 2 != 0 {
        return None;
    }
    let n = s.len() / 2;
    for (byte, digits) in out.get_mut(..n)?.iter_mut().zip(s.chunks_exact(2)) {
        *byte = hex_byte(digits[0], digits[1])?;
    }
    Some(n)
}

fn bit(digit: u8) -> Option<u8> {
    u8::try_from(char::from(digit).to_digit(2)?).ok()
}

// A run of bits, one byte a bit.
pub fn bits(s: &[u8], out: &mut [u8]) -> Option<usize>
    ensures { IfSome result (λ n. n ≤ length out.new) }
{
    let s = run(s)?;
    for (place, digit) in out.get_mut(..s.len())?.iter_mut().zip(s) {
        *place = bit(*digit)?;
    }
    Some(s.len())
}

// The byte that a text begins with, of which `\n` and `\xHH` stand for one each, and what comes after it.
fn first_byte(s: &[u8]) -> Option<(u8, &[u8])>
    ensures { IfSome result (λ p. length p.1.now + 1 ≤ length s.now) }
{
    match s {
        [b'\\', b'n', rest @ ..] => Some((b'\n', rest)),
        [b'\\', b'x', high, low, rest @ ..] => Some((hex_byte(*high, *low)?, rest)),
        [] | [b'\\', ..] => None,
        [b, rest @ ..] => Some((*b, rest)),
    }
}

// The bytes that a text with `\n` and `\xHH` in it stands for.
// A turn takes one, two or four bytes, or refuses them all: an iterator would be no plainer.
pub fn written(s: &[u8], out: &mut [u8]) -> Option<usize>
    ensures { IfSome result (λ n. n ≤ length out.new) }
{
    let mut rest = run(s)?;
    let mut k: usize = 0;
    while !rest.is_empty() {
        let (b, after) = first_byte(rest)?;
        *out.get_mut(k)? = b;
        k += 1;
        rest = after;
    }
    Some(k)
}

// Moves `s[from..to]` to the front; answers its length.
pub fn shift(s: &mut [u8], from: usize, to: usize) -> usize {
    let to = to.min(s.len());
    let from = from.min(to);
    s.copy_within(from..to, 0);
    to - from
}

// The front of one buffer becomes a copy of another, as far as it goes.
pub fn copy(src: &[u8], out: &mut [u8]) -> usize
    ensures { result ≤ length out.new }
{
    let n = src.len().min(out.len());
    out[..n].copy_from_slice(&src[..n]);
    n
}

// A buffer too long for its length to be computed where it stands.
pub fn buffer<const N: usize>() -> [u8; N]
    ensures { N ≡ length result }
{
    [0; N]
}
