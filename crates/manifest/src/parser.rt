// From the bytes of a line to what it says.
ghost use Rattle.std.specs.Prelude.{◌≡◌, [], ◌∷◌, ◌<◌, ◌≤◌, ℕ, get_or, IfSome};
ghost use Rattle.ids.specs.Ids.{largest32, largest64};
ghost use Rattle.manifest.specs.Operations.{operation_of, operation, said_of, line_said, create_table, drop_table};
ghost use Rattle.manifest.specs.Lines.{last_id32, last_id64, field_at, at_end, one_field, table_fields, line_of};
ghost use Rattle.manifest.specs.Fields.{fields_at, two_numbers, three_numbers};

use crate::operation::{EpochOp, ManifestOperation};
use ids::limits::{LARGEST_32, LARGEST_64};
use ids::name::Name;
use ids::{RowsetNo, TableNo, VectorNo};
use text::ByteClasses;

// The largest value of a field that holds an id.
const LAST_ID32: u32 = LARGEST_32 - 1;

const LAST_ID64: u64 = LARGEST_64 - 1;

// A comma, and a number after it; and the place after that.
#[tactic(auto, using(crate::proofs::Fields::one_field_steps))]
fn field(classes: &ByteClasses, s: &[u8], at: usize, limit: u64) -> Option<(u64, usize)>
    ensures { result ≡ field_at limit s.now at }
{
    if !classes.is_comma(*s.get(at)?) {
        return None;
    }
    classes.read_number(s, at + 1, limit)
}

// Fields from the second byte to the line's end, one for each limit. By index: tried as a zip, but nothing is known of what an adapter of
// `iter_mut` writes, so that the proof does not close.
#[tactic(auto, using(crate::proofs::Fields::field_steps))]
fn fields<const N: usize>(classes: &ByteClasses, s: &[u8], limits: [u64; N]) -> Option<[u64; N]>
    ensures told { result ≡ fields_at limits.entry s.now 1 }
    ensures small { IfSome result (λ ns. (k : ℕ) → k < N → get_or ns k 0 ≤ get_or limits.entry k 0) }
{
    let mut values = [0; N];
    let mut at = 1;
    for i in 0..N {
        (values[i], at) = field(classes, s, at, limits[i])?;
    }
    if at == s.len() { Some(values) } else { None }
}

// A table and a rowset.
fn pair(classes: &ByteClasses, s: &[u8]) -> Option<(TableNo, RowsetNo)>
    ensures { two_numbers result ≡ fields_at (last_id32 ∷ last_id32 ∷ []) s.now 1 }
{
    let [t, r] = fields(classes, s, [u64::from(LAST_ID32); 2])?;
    Some((TableNo(t as u32), RowsetNo(r as u32)))
}

// A table, a rowset and a vector, up to the last numbers of their widths.
fn vector(
    classes: &ByteClasses,
    s: &[u8],
    last: u32,
    last_vector: u64,
) -> Option<(TableNo, RowsetNo, VectorNo)>
    ensures { three_numbers result ≡ fields_at (last ∷ last ∷ last_vector ∷ []) s.now 1 }
{
    let [t, r, v] = fields(classes, s, [u64::from(last), u64::from(last), last_vector])?;
    Some((TableNo(t as u32), RowsetNo(r as u32), VectorNo(v)))
}

// A letter with nothing after it.
fn alone(s: &[u8], op: ManifestOperation) -> Option<ManifestOperation>
    ensures { line_said result ≡ at_end s.now 1 (said_of op) }
{
    if s.len() == 1 { Some(op) } else { None }
}

fn epoch(op: EpochOp) -> Option<ManifestOperation>
    ensures { line_said result ≡ operation (operation_of op) }
{
    Some(ManifestOperation::Epoch(op))
}

// A table, its shape, and its name, which goes to the line's end.
#[tactic(auto, using(crate::proofs::Fields::table_steps))]
fn create_line(classes: &ByteClasses, s: &[u8]) -> Option<ManifestOperation>
    ensures { line_said result ≡ table_fields last_id32 largest32 create_table s.now }
{
    let (t, i) = field(classes, s, 1, u64::from(LAST_ID32))?;
    let (h, j) = field(classes, s, i, u64::from(LARGEST_32))?;
    if !classes.is_comma(*s.get(j)?) {
        return None;
    }
    let name = &s[j + 1..];
    if !classes.is_name(name) {
        return None;
    }
    epoch(EpochOp::CreateTable(TableNo(t as u32), h as u32, Name::of(name)))
}

#[tactic(auto, using(crate::proofs::Fields::one_steps))]
fn drop_line(classes: &ByteClasses, s: &[u8]) -> Option<ManifestOperation>
    ensures { line_said result ≡ one_field last_id32 drop_table s.now }
{
    let [t] = fields(classes, s, [u64::from(LAST_ID32)])?;
    epoch(EpochOp::DropTable(TableNo(t as u32)))
}

// Internal. The line that s is, without its newline. A match: each letter has its own fields, so a table of functions would be no plainer.
#[tactic(auto, unfolding(crate::specs::Lines::line_of, crate::specs::Lines::line_by))]
pub fn parse(classes: &ByteClasses, s: &[u8]) -> Option<ManifestOperation>
    ensures { line_said result ≡ line_of s.now }
{
    if classes.is_mark(*s.last()?) {
        return Some(ManifestOperation::Torn);
    }
    match s[0] {
        b'B' => alone(s, ManifestOperation::Begin),
        b'E' => alone(s, ManifestOperation::End),
        b'T' => create_line(classes, s),
        b'X' => drop_line(classes, s),
        b'A' => {
            let (t, r) = pair(classes, s)?;
            epoch(EpochOp::AddRowSet(t, r))
        }
        b'D' => {
            let (t, r) = pair(classes, s)?;
            epoch(EpochOp::DeleteRowSet(t, r))
        }
        b'V' => {
            let (t, r, v) = vector(classes, s, LAST_ID32, LAST_ID64)?;
            epoch(EpochOp::AddDV(t, r, v))
        }
        b'W' => {
            let (t, r, v) = vector(classes, s, LAST_ID32, LAST_ID64)?;
            epoch(EpochOp::DeleteDV(t, r, v))
        }
        b'N' => {
            let (t, r, v) = vector(classes, s, LARGEST_32, LARGEST_64)?;
            epoch(EpochOp::NextIds(t, r, v))
        }
        _ => None,
    }
}
