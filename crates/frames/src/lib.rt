// A frame of a manifest and its lines, written.
#![tactic(auto)]

ghost use Rattle.std.specs.Prelude.{◌≡◌, [], ◌∷◌, ◌++◌, ◌+◌, ◌≤◌, length};
ghost use Rattle.lists.specs.Written.{over, Wrote};
ghost use Rattle.manifest.specs.Operations.{operation_of};
ghost use Rattle.manifest.specs.Lines.{text_of};

use manifest::operation::EpochOp;
use std::marker::Model;

// Lines, one after another, in an array that counts what it holds. Contracts see their bytes.
// An array of our own, since an `ArrayVec` misses the bar, as measured: it is filled and then copied when it is made, which takes an eighth of
// a commit of one operation.
#[derive(Drop)]
pub struct Lines<const N: usize> {
    bytes: [u8; N],
    used: usize,
}

impl<const N: usize> Model for Lines<N> {
    ghost use Rattle.std.specs.Prelude.{◌≡◌, ◌≤◌, List, ℕ, length, take};

    ghost Value = { List ℕ };

    ghost view = { λ l. take l.used l.bytes };

    ghost invariant = { λ l. (l.used ≤ N) × (length l.bytes ≡ N) };
}

impl<const N: usize> Lines<N> {
    pub fn new() -> Self
        ensures { result ≡ [] }
    {
        Lines {
            bytes: [0; N],
            used: 0,
        }
    }

    pub fn clear(&mut self)
        ensures { self.new ≡ [] }
    {
        self.used = 0;
    }

    pub fn as_slice(&self) -> &[u8]
        ensures { result.now ≡ self.now }
    {
        &self.bytes[..self.used]
    }

    // Internal, as is what follows: the caller has checked that there is room.
    pub fn put_line(&mut self, change: EpochOp)
        requires { length self.old + length (text_of (operation_of change) ++ (10 ∷ [])) ≤ N }
        ensures { self.new ≡ self.old ++ (text_of (operation_of change) ++ (10 ∷ [])) }
    {
        let i = manifest::printer::print(&mut self.bytes, self.used, change);
        self.used = text::put_byte(&mut self.bytes, i, b'\n');
    }

    pub fn put_letter(&mut self, letter: u8)
        requires { length self.old + 2 ≤ N }
        ensures { self.new ≡ self.old ++ (letter ∷ 10 ∷ []) }
    {
        self.used = put_letter(&mut self.bytes, self.used, letter);
    }
}

// A letter's line from a place on; answers the place after it.
// As in `text`, measured there.
fn put_letter(out: &mut [u8], at: usize, letter: u8) -> usize
    requires { at + 2 ≤ length out.old }
    ensures { Wrote out.old at (letter ∷ 10 ∷ []) out.new result }
{
    let i = text::put_byte(out, at, letter);
    text::put_byte(out, i, b'\n')
}

// What a commit of lines appends, into the slice that C lends: `!`, which ends the line that an append before it was cut off in, and the
// frame `B`, the lines, `E`.
pub fn put_append(out: &mut [u8], lines: &[u8])
    requires { length lines.now + 6 ≤ length out.old }
    ensures { out.new ≡ over (33 ∷ 10 ∷ 66 ∷ 10 ∷ (lines.now ++ (69 ∷ 10 ∷ []))) out.old }
{
    let i = put_letter(out, 0, b'!');
    let i = put_letter(out, i, b'B');
    let i = text::put_bytes(out, i, lines);
    put_letter(out, i, b'E');
}
