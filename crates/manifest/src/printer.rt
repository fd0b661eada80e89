// From an operation to the bytes of its line. All here is internal: the caller has checked that there is room. Into a slice from a place on,
// as `text` writes: byte by byte into an `ArrayVec` a line takes 1.2 to 1.4 times as long, as measured.
ghost use Rattle.std.specs.Prelude.{◌≡◌, [], ◌∷◌, ◌++◌, ◌+◌, ◌≤◌, length};
ghost use Rattle.lists.specs.Written.{Wrote};
ghost use Rattle.ids.specs.Names.{name_of};
ghost use Rattle.text.specs.Class.{comma};
ghost use Rattle.manifest.specs.Operations.{operation_of};
ghost use Rattle.manifest.specs.Lines.{create_letter, fields_text, text_of, longest_text};

use crate::operation::EpochOp;
use ids::name::Name;

// A letter, and fields: each a comma and a number.
#[tactic(auto, using(crate::proofs::Texts::fields_steps))]
fn put_fields(out: &mut [u8], at: usize, letter: u8, fields: &[u64]) -> usize
    requires { at + length (letter ∷ fields_text fields.now) ≤ length out.old }
    ensures { Wrote out.old at (letter ∷ fields_text fields.now) out.new result }
{
    let mut i = text::put_byte(out, at, letter);
    for n in fields {
        i = text::put_byte(out, i, b',');
        i = text::put_number(out, i, *n);
    }
    i
}

fn put_table(out: &mut [u8], at: usize, x: u64, y: u64, name: Name) -> usize
    requires { at + length (create_letter ∷ (fields_text (x ∷ y ∷ []) ++ (comma ∷ name_of name))) ≤ length out.old }
    ensures { Wrote out.old at (create_letter ∷ (fields_text (x ∷ y ∷ []) ++ (comma ∷ name_of name))) out.new result }
{
    let i = put_fields(out, at, b'T', &[x, y]);
    let j = text::put_byte(out, i, b',');
    text::put_bytes(out, j, name.as_slice())
}

// The operation as a line without its newline. Returns the place after it.
#[tactic(auto, unfolding(crate::specs::Lines::text_of))]
pub fn print(out: &mut [u8], at: usize, change: EpochOp) -> usize
    requires { at + length (text_of (operation_of change)) ≤ length out.old }
    ensures { Wrote out.old at (text_of (operation_of change)) out.new result }
{
    match change {
        EpochOp::CreateTable(t, h, name) => {
            put_table(out, at, u64::from(t.0), u64::from(h), name)
        }
        EpochOp::DropTable(t) => put_fields(out, at, b'X', &[u64::from(t.0)]),
        EpochOp::AddRowSet(t, r) => put_fields(out, at, b'A', &[u64::from(t.0), u64::from(r.0)]),
        EpochOp::DeleteRowSet(t, r) => put_fields(out, at, b'D', &[u64::from(t.0), u64::from(r.0)]),
        EpochOp::AddDV(t, r, v) => put_fields(
            out,
            at,
            b'V',
            &[u64::from(t.0), u64::from(r.0), v.0],
        ),
        EpochOp::DeleteDV(t, r, v) => {
            put_fields(out, at, b'W', &[u64::from(t.0), u64::from(r.0), v.0])
        }
        EpochOp::NextIds(t, r, v) => {
            put_fields(out, at, b'N', &[u64::from(t.0), u64::from(r.0), v.0])
        }
    }
}

#[tactic(auto, using(crate::proofs::Texts::fields_steps))]
fn fields_length(fields: &[u64]) -> usize
    requires { length fields.now ≤ 3 }
    ensures { result ≡ length (fields_text fields.now) }
{
    let mut k: usize = 0;
    for n in fields {
        k += 1 + text::number_length(*n);
    }
    k
}

// How many bytes `print` writes.
#[tactic(auto, unfolding(crate::specs::Lines::text_of), using(crate::proofs::Texts::text_lengths))]
pub fn text_length(change: EpochOp) -> usize
    ensures { (result ≡ length (text_of (operation_of change))) × (result ≤ longest_text) }
{
    match change {
        EpochOp::CreateTable(t, h, name) => {
            2 + fields_length(&[u64::from(t.0), u64::from(h)]) + name.as_slice().len()
        }
        EpochOp::DropTable(t) => 1 + fields_length(&[u64::from(t.0)]),
        EpochOp::AddRowSet(t, r) | EpochOp::DeleteRowSet(t, r) => {
            1 + fields_length(&[u64::from(t.0), u64::from(r.0)])
        }
        EpochOp::AddDV(t, r, v) | EpochOp::DeleteDV(t, r, v) | EpochOp::NextIds(t, r, v) => {
            1 + fields_length(&[u64::from(t.0), u64::from(r.0), v.0])
        }
    }
}
