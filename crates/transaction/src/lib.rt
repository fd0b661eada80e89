// Grouping: the row handles of a transaction become one delete vector a rowset.
#![tactic(auto)]

ghost use Rattle.std.specs.Prelude.{◌≡◌, false, length, map};
ghost use Rattle.std.specs.List.{list_all};
ghost use Rattle.ids.specs.Ids.{is_id32};
ghost use Rattle.ids.specs.declared.SecondaryRowHandler.{SecondaryRowHandler};
ghost use Rattle.transaction.specs.Groups.{handle_of, handles_of};
ghost use Rattle.transaction.specs.Says.{no_id, GroupIs};
ghost use Rattle.transaction.specs.Laws.{GroupLaws};

use ids::limits::LARGEST_64;
use ids::refusal::Refusal;
use ids::{RowNo, RowsetNo, SecondaryRowHandler};
use order::FewHandles;
use vectors::Vectors;

pub mod order;
pub mod vectors;

// The most handles of a transaction.
pub const MOST_HANDLES: usize = 4096;

// The handles of a transaction: the first `count`. A count above the array is refused, and an `ArrayVec` cannot hold one, so that it would be no
// plainer.
#[derive(Drop)]
pub struct Handles {
    pub items: [SecondaryRowHandler; MOST_HANDLES],
    pub count: usize,
}

// The laws of grouping.
pub fn holds()
    ensures { GroupLaws }
{}

fn are_ids(handles: &[SecondaryRowHandler]) -> bool
    ensures { result ≡ list_all (λ (h : SecondaryRowHandler). is_id32 h.0.0) handles.now }
{
    handles.iter().all(|handle| handle.rowset_id().is_id())
}

// Handles whose rowsets are ids. Answers how many vectors there are. The five slices stay five in here too: tried as a struct, the
// proof does not close that what `hand_out` leaves in it is what this leaves.
fn grouped(
    given: &FewHandles,
    next: u64,
    rs: &mut [u32],
    ls: &mut [u32],
    cs: &mut [u32],
    fs: &mut [u8],
    ms: &mut [u32],
) -> Result<usize, Refusal>
    requires { no_id (map handle_of given.now.handles.now) ≡ false }
    ensures { GroupIs (map handle_of given.now.handles.now) (length given.now.handles.now) next rs.old ls.old cs.old fs.old ms.old result rs.new ls.new cs.new fs.new ms.new }
{
    let n = given.handles.len();
    let mut ordered = [SecondaryRowHandler::default(); MOST_HANDLES];
    let ordered = &mut ordered[..n];
    given.by_rowset(ordered);
    let mut rows = [0u32; MOST_HANDLES];
    let rows = &mut rows[..n];
    vectors::put_rows(ordered, rows);
    let vectors = Vectors::of(&FewHandles { handles: ordered }, rows);
    let count = vectors.count;
    if LARGEST_64 - next < count as u64 {
        return Err(Refusal::IdsUsedUp);
    }
    vectors.hand_out(rows, rs, ls, cs, fs, ms)?;
    Ok(count)
}

// The vectors of handles; their ids are from next on. 29 is judged before. The five slices come one by one, as C lends them.
pub fn group(
    handles: &Handles,
    next: u64,
    rs: &mut [u32],
    ls: &mut [u32],
    cs: &mut [u32],
    fs: &mut [u8],
    ms: &mut [u32],
) -> Result<usize, Refusal>
    ensures { GroupIs (handles_of handles.now) handles.now.count next rs.old ls.old cs.old fs.old ms.old result rs.new ls.new cs.new fs.new ms.new }
{
    let items = &handles.items[..handles.count.min(MOST_HANDLES)];
    if !are_ids(items) {
        return Err(Refusal::Malformed(0));
    }
    if MOST_HANDLES < handles.count {
        return Err(Refusal::WrongCount);
    }
    grouped(&FewHandles { handles: items }, next, rs, ls, cs, fs, ms)
}
