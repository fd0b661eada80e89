// The vectors of handles, made in arrays and written to lent slices. All here is internal.
ghost use Rattle.std.specs.Prelude.{◌≡◌, ◌+◌, ◌≤◌, ◌<◌, length, take, map, List, [], ◌∷◌, ◌++◌};
ghost use Rattle.delete_vector.specs.Records.{records_of};
ghost use Rattle.delete_vector.specs.Memory.{in_memory};
ghost use Rattle.transaction.specs.Groups.{Handle, Vector, handle_of, vectors_of, files_in};
ghost use Rattle.transaction.specs.Says.{most_handles};
ghost use Rattle.transaction.specs.Orders.{From};

use super::MOST_HANDLES;
use crate::order::FewHandles;
use delete_vector::{file, memory};
use ids::refusal::Refusal;
use ids::{RowsetNo, SecondaryRowHandler};

// Vectors one after another: of each its rowset, the bytes of its file and its count of rows in memory; then those rows of all.
// In columns, since each is copied to a slice that C lends. An `ArrayVec` for each would have four counts where two are enough, and be no plainer.
#[derive(Drop)]
pub struct Vectors {
    pub count: usize,
    pub rowsets: [u32; MOST_HANDLES],
    pub lengths: [u32; MOST_HANDLES],
    pub counts: [u32; MOST_HANDLES],
    pub kept: usize,
    pub held: [u32; MOST_HANDLES],
    ghost within: { (count ≤ 4096) × (kept ≤ 4096) },
}

// Rows that rise already are only copied. `delete_vector::in_memory` would make two arrays for each vector.
// The slices are lent one by one: a struct of them would be no plainer, as in `delete_vector`.
fn ascend(rows: &[u32], out: &mut [u32], spare: &mut [u32]) -> usize
    requires { (length rows.now ≤ length out.old) × (length rows.now ≤ length spare.old) }
    ensures { (take result out.new ≡ in_memory rows.now) × (result ≤ length rows.now) }
{
    if memory::rises(rows) {
        out[..rows.len()].copy_from_slice(rows);
        return rows.len();
    }
    memory::ascend(rows, out, spare)
}

// The rows of handles. By index: tried as a zip, but nothing is known of what an adapter of `iter_mut` writes, so that the proof does not
// close.
pub fn put_rows(handles: &[SecondaryRowHandler], out: &mut [u32])
    requires { length out.old ≡ length handles.now }
    ensures { out.new ≡ map (λ (h : Handle). h.row) (map handle_of handles.now) }
{
    for (i, handle) in handles.iter().enumerate() {
        out[i] = handle.row_id().0;
    }
}

impl Vectors {
    ghost use Rattle.transaction.specs.Made.{Holds, Handed};

    // By hand, since a type that holds a fact derives no `Default`.
    fn new() -> Vectors
        ensures { (result.kept ≡ 0) × Holds [] result }
    {
        Vectors {
            count: 0,
            rowsets: [0; MOST_HANDLES],
            lengths: [0; MOST_HANDLES],
            counts: [0; MOST_HANDLES],
            kept: 0,
            held: [0; MOST_HANDLES],
        }
    }

    // The vector of one more rowset, of these rows.
    fn add(&mut self, rowset: RowsetNo, rows: &[u32], spare: &mut [u32])
        requires { (self.old.count < most_handles) × (self.old.kept + length rows.now ≤ most_handles) × (length spare.old ≡ most_handles) }
        ensures { (self.new.kept ≤ self.old.kept + length rows.now) × ((vs : List Vector) → Holds vs self.old → Holds (vs ++ (record { rowset = rowset.0; file = records_of rows.now; memory = in_memory rows.now } ∷ [])) self.new) }
    {
        let bytes = file::file_size(rows);
        let count = ascend(rows, &mut self.held[self.kept..], spare);
        self.rowsets[self.count] = rowset.0;
        self.lengths[self.count] = bytes as u32;
        self.counts[self.count] = count as u32;
        self.count += 1;
        self.kept += count;
    }

    // The vectors of handles that are in the order of their rowsets, and have these rows.
    pub fn of(ordered: &FewHandles, rows: &[u32]) -> Vectors
        requires { From 0 (map handle_of ordered.now.handles.now) × (rows.now ≡ map (λ (h : Handle). h.row) (map handle_of ordered.now.handles.now)) }
        ensures { Holds (vectors_of (map handle_of ordered.now.handles.now)) result × (records_of rows.now ≡ files_in (vectors_of (map handle_of ordered.now.handles.now))) }
    {
        let mut vectors = Vectors::new();
        let mut spare = [0u32; MOST_HANDLES];
        let mut at = 0;
        for run in ordered
            .handles
            .chunk_by(|a, b| a.rowset_id() == b.rowset_id())
        {
            let end = at + run.len();
            vectors.add(run[0].rowset_id(), &rows[at..end], &mut spare);
            at = end;
        }
        vectors
    }

    // The vectors go to the lent slices, as C lends them, where every one has room; rows are those of all.
    pub fn hand_out(
        &self,
        rows: &[u32],
        rs: &mut [u32],
        ls: &mut [u32],
        cs: &mut [u32],
        fs: &mut [u8],
        ms: &mut [u32],
    ) -> Result<(), Refusal>
        requires { length rows.now ≤ most_handles }
        ensures { (vs : List Vector) → Holds vs self.now → records_of rows.now ≡ files_in vs → Handed vs result rs.old ls.old cs.old fs.old ms.old rs.new ls.new cs.new fs.new ms.new }
    {
        let n = self.count;
        let bytes = file::file_size(rows);
        if rs.len() < n
            || ls.len() < n
            || cs.len() < n
            || fs.len() < bytes
            || ms.len() < self.kept
        {
            return Err(Refusal::OutputTooShort);
        }
        rs[..n].copy_from_slice(&self.rowsets[..n]);
        ls[..n].copy_from_slice(&self.lengths[..n]);
        cs[..n].copy_from_slice(&self.counts[..n]);
        file::put_records(rows, fs, 0);
        ms[..self.kept].copy_from_slice(&self.held[..self.kept]);
        Ok(())
    }
}
