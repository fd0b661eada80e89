// The rewritten manifest of what a state shows now. The structs of the C interface cannot say that their counts are within the columns, so each
// function that is lent a state asks for it.
#![tactic(auto)]

ghost use Rattle.std.specs.Prelude.{◌≡◌, [], ◌∷◌, ◌++◌, map, ◌+◌, ◌*◌, ◌≤◌, length};
ghost use Rattle.lists.specs.Written.{Wrote};
ghost use Rattle.ids.specs.Limits.{most_tables, most_held};
ghost use Rattle.ids.specs.Names.{name_of};
ghost use Rattle.ids.specs.declared.refusal.Refusal.TheVariants.{OutputTooShort};
ghost use Rattle.manifest.specs.Operations.{create_table, next_ids, operation_of};
ghost use Rattle.frames.specs.Frames.{texts_of};
ghost use Rattle.version_state.specs.State.{state_of, pairs_at, vectors_at, Fit};
ghost use Rattle.rewrite.specs.Laws.{RewrittenFits};
ghost use Rattle.rewrite.specs.Says.{RewriteIs};
ghost use Rattle.rewrite.specs.Rewritten.{create_of, add_of, add_vector_of, longest_next, longest_create, longest_add, longest_add_vector, longest_rewritten, rewritten_of};

use frames::Lines;
use ids::TableNo;
use ids::limits::LONGEST_REWRITTEN;
use ids::name::Name;
use ids::refusal::Refusal;
use manifest::operation::EpochOp;
use snapshot::held::HeldColumns;
use version_state::{NextIds, VersionManagerInner};

// Why a rewritten manifest is not handed out: the lent bytes do not hold it.
#[derive(Clone, Copy, Debug, PartialEq, Eq)]
pub struct TooShort {
    // How many bytes it has, which would have been enough.
    pub needed: usize,
}

// As other calls tell it: refusal 9, which has no length.
impl From<TooShort> for Refusal {
    ghost from_gives = { λ _ why. why ≡ OutputTooShort };

    fn from(_short: TooShort) -> Refusal {
        Refusal::OutputTooShort
    }
}

// A rewritten manifest never has more bytes than the longest one.
pub fn holds()
    ensures { RewrittenFits }
{}

// `N`. By value, so that the widths of the ids are known.
fn next_change(next: NextIds) -> EpochOp
    ensures { (operation_of result ≡ next_ids next.table.0 next.rowset.0 next.vector.0) × (length (texts_of (operation_of result ∷ [])) ≤ longest_next) }
{
    EpochOp::NextIds(next.table, next.rowset, next.vector)
}

// `T`. Internal, as is what follows. The parameters are the operation's own: a struct of them would be no plainer.
pub fn create_change(table: TableNo, shape: u32, name: Name) -> EpochOp
    ensures { (operation_of result ≡ create_table table.0 shape (name_of name)) × (length (texts_of (operation_of result ∷ [])) ≤ longest_create) }
{
    EpochOp::CreateTable(table, shape, name)
}

// The `T` lines; locks are not written. By places: `Tables` has no iterator, and one for this loop would be no plainer.
fn put_tables(inner: &VersionManagerInner, lines: &mut Lines<LONGEST_REWRITTEN>)
    requires fits { Fit inner.now }
    requires room { length lines.old + longest_create * most_tables ≤ longest_rewritten }
    ensures { (lines.new ≡ lines.old ++ texts_of (map create_of (state_of inner.now).tables)) × (length lines.new ≤ length lines.old + longest_create * most_tables) }
{
    for i in 0..inner.tables.count {
        let table = inner.tables.get(i);
        lines.put_line(create_change(table.table, table.shape, table.name));
    }
}

// The `A` lines of what is shown now. Its own loop: a shared one, handed the operations, would want a clause on how long their lines are,
// and be no plainer.
fn put_pairs(inner: &VersionManagerInner, lines: &mut Lines<LONGEST_REWRITTEN>)
    requires fits { Fit inner.now }
    requires room { length lines.old + longest_add * most_held ≤ longest_rewritten }
    ensures { (lines.new ≡ lines.old ++ texts_of (map add_of (pairs_at inner.now.epoch (state_of inner.now)))) × (length lines.new ≤ length lines.old + longest_add * most_held) }
{
    for r in inner.rowsets.shown(inner.epoch) {
        lines.put_line(EpochOp::AddRowSet(r.ids.table, r.ids.rowset));
    }
}

// The `V` lines of what is shown now. Its own loop, as above: a shared one would be no plainer.
fn put_vectors(inner: &VersionManagerInner, lines: &mut Lines<LONGEST_REWRITTEN>)
    requires fits { Fit inner.now }
    requires room { length lines.old + longest_add_vector * most_held ≤ longest_rewritten }
    ensures { (lines.new ≡ lines.old ++ texts_of (map add_vector_of (vectors_at inner.now.epoch (state_of inner.now)))) × (length lines.new ≤ length lines.old + longest_add_vector * most_held) }
{
    for v in inner.vectors.shown(inner.epoch) {
        lines.put_line(EpochOp::AddDV(v.ids.table, v.ids.rowset, v.ids.vector));
    }
}

// The rewritten manifest, in the place of other lines, in an array that has room for the longest one.
pub fn put_rewritten_lines(inner: &VersionManagerInner, lines: &mut Lines<LONGEST_REWRITTEN>)
    requires { Fit inner.now }
    ensures { (lines.new ≡ rewritten_of (state_of inner.now)) × (length lines.new ≤ longest_rewritten) }
{
    lines.clear();
    lines.put_letter(b'B');
    lines.put_line(next_change(inner.next));
    put_tables(inner, lines);
    put_pairs(inner, lines);
    put_vectors(inner, lines);
    lines.put_letter(b'E');
}

// The rewritten manifest, at the start of a slice that has room for the longest one; what lies behind it stays. Answers its length.
pub fn put_rewritten(inner: &VersionManagerInner, out: &mut [u8]) -> usize
    requires { Fit inner.now × (longest_rewritten ≤ length out.old) }
    ensures { Wrote out.old 0 (rewritten_of (state_of inner.now)) out.new result × (result ≤ longest_rewritten) }
{
    let mut lines = Lines::new();
    put_rewritten_lines(inner, &mut lines);
    text::put_bytes(out, 0, lines.as_slice())
}

// The rewritten manifest handed out, for a reopened store and for one that stays open; answers its length. Refused where the lent bytes do not hold
// it, and the refusal tells its length too.
pub fn rewrite_into(inner: &mut VersionManagerInner, out: &mut [u8]) -> Result<usize, TooShort>
    requires { Fit inner.old }
    ensures { RewriteIs (state_of inner.old) out.old result inner.new out.new }
{
    let mut lines = Lines::new();
    put_rewritten_lines(inner, &mut lines);
    let printed = lines.as_slice();
    let n = printed.len();
    if out.len() < n {
        return Err(TooShort { needed: n });
    }
    text::put_bytes(out, 0, printed);
    inner.manifest = n;
    Ok(n)
}
