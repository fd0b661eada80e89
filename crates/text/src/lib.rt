// Bytes by their class, names, and decimal numbers: read from a place of a slice and written to one.
#![tactic(auto)]

ghost use Rattle.std.specs.Prelude.{◌≡◌, ◌+◌, ◌≤◌, ◌<◌, [], ◌∷◌, length};
ghost use Rattle.lists.specs.Written.{Wrote};
ghost use Rattle.text.specs.Class.{Classes, class_of, is_digit, is_comma, is_newline, is_mark};
ghost use Rattle.text.specs.Name.{is_name_byte, is_name};
ghost use Rattle.text.specs.Decimal.{digits, read_at};
ghost use Rattle.text.specs.Laws.{NumbersAgree};

use ids::limits::LONGEST_NAME;

pub mod class;

// The classes that are asked for. The specification gives them, and its table's entries, as numbers: an enum would be no plainer,
// since the table would still hold its numbers.
const DIGIT: u8 = 1;

const LOWER: u8 = 2;

const COMMA: u8 = 4;

const NEWLINE: u8 = 5;

const MARK: u8 = 6;

// The table of classes. The compiler copies a constant array wherever it is indexed, so a call makes one of these and lends it to
// all that looks at bytes.
#[derive(Drop)]
pub struct ByteClasses {
    table: [u8; 256],
    ghost right: { Classes table },
}

impl ByteClasses {
    pub fn new() -> ByteClasses {
        ByteClasses {
            table: class::CLASS,
        }
    }

    pub fn class_of(&self, b: u8) -> u8
        ensures { result ≡ class_of b }
    {
        self.table[usize::from(b)]
    }

    // This and the next three are one comparison each, with a definition of its own: one function over the class would be no plainer,
    // since it would only move the constants to its callers.
    #[tactic(auto, using(crate::proofs::Bytes::class_tests))]
    pub fn is_digit(&self, b: u8) -> bool
        ensures { result ≡ is_digit b }
    {
        self.class_of(b) == DIGIT
    }

    // One comparison: a parameter for the class would be no plainer.
    #[tactic(auto, using(crate::proofs::Bytes::class_tests))]
    pub fn is_comma(&self, b: u8) -> bool
        ensures { result ≡ is_comma b }
    {
        self.class_of(b) == COMMA
    }

    // One comparison: a parameter for the class would be no plainer.
    #[tactic(auto, using(crate::proofs::Bytes::class_tests))]
    pub fn is_newline(&self, b: u8) -> bool
        ensures { result ≡ is_newline b }
    {
        self.class_of(b) == NEWLINE
    }

    // `!`, which ends a torn line. One comparison: a parameter for the class would be no plainer.
    #[tactic(auto, using(crate::proofs::Bytes::class_tests))]
    pub fn is_mark(&self, b: u8) -> bool
        ensures { result ≡ is_mark b }
    {
        self.class_of(b) == MARK
    }

    // a-z, 0-9 or `_`.
    #[tactic(auto, using(crate::proofs::Bytes::class_tests))]
    pub fn is_name_byte(&self, b: u8) -> bool
        ensures { result ≡ is_name_byte b }
    {
        let class = self.class_of(b);
        class == DIGIT || class == LOWER
    }

    pub fn is_name(&self, s: &[u8]) -> bool
        ensures { result ≡ is_name s.now }
    {
        !s.is_empty() && s.len() <= LONGEST_NAME && s.iter().all(|b| self.is_name_byte(*b))
    }

    // The number that starts at `at`, without leading zeros and at most `limit`, and the place after it. It is read digit by digit:
    // the library's parse takes a sign and leading zeros and tells no place, so that it would be no plainer.
    #[tactic(auto, using(crate::proofs::Decimal::number_steps))]
    pub fn read_number(&self, s: &[u8], at: usize, limit: u64) -> Option<(u64, usize)>
        ensures { result ≡ read_at limit s.now at }
    {
        let first = *s.get(at)?;
        if !self.is_digit(first) {
            return None;
        }
        let mut n = u64::from(first - b'0');
        if limit < n {
            return None;
        }
        for i in at + 1..s.len() {
            let b = s[i];
            if !self.is_digit(b) {
                return Some((n, i));
            }
            if n == 0 {
                return None;
            }
            n = n.checked_mul(10)?.checked_add(u64::from(b - b'0'))?;
            if limit < n {
                return None;
            }
        }
        Some((n, s.len()))
    }
}

// How many bytes `put_number` writes.
#[tactic(auto, using(crate::proofs::Round::digit_counts))]
pub fn number_length(n: u64) -> usize
    ensures { result ≡ length (digits n) }
{
    match n.checked_ilog10() {
        Some(k) => k as usize + 1,
        None => 1,
    }
}

// Internal: the caller has checked that there is room. Each function that writes returns the place after what it wrote: byte by byte into
// an `ArrayVec`, as measured, the lines of a commit take 1.2 to 1.4 times as long. Whole lines go into `frames::Lines`, which counts them.
// By hand, since the library's `write!` into a slice does not say which bytes it writes: its proof does not close.
#[tactic(auto, using(crate::proofs::Decimal::digit_lengths))]
pub fn put_number(out: &mut [u8], at: usize, n: u64) -> usize
    requires { at + length (digits n) ≤ length out.old }
    ensures { Wrote out.old at (digits n) out.new result }
{
    if n < 10 {
        out[at] = b'0' + n as u8;
        at + 1
    } else {
        let i = put_number(out, at, n / 10);
        out[i] = b'0' + (n % 10) as u8;
        i + 1
    }
}

// Internal: the caller has checked that there is room. Into a slice from a place on, as measured above.
pub fn put_byte(out: &mut [u8], at: usize, b: u8) -> usize
    requires { at < length out.old }
    ensures { Wrote out.old at (b ∷ []) out.new result }
{
    out[at] = b;
    at + 1
}

// Internal: the caller has checked that there is room. Into a slice from a place on, as measured above.
pub fn put_bytes(out: &mut [u8], at: usize, src: &[u8]) -> usize
    requires { at + length src.now ≤ length out.old }
    ensures { Wrote out.old at src.now out.new result }
{
    let end = at + src.len();
    out[at..end].copy_from_slice(src);
    end
}

// The laws of numbers as text.
pub fn holds()
    ensures { NumbersAgree }
{}
