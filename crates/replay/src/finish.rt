// The end of a replay: what was read becomes what a manager holds. Each function that needs room asks for it: a frame uses it up, so that a field of
// `Sets` would be no plainer.
ghost use Rattle.std.specs.Prelude.{◌≡◌, map, ◌≤◌, length};
ghost use Rattle.lists.specs.Keyed.{keep, all_of};
ghost use Rattle.ids.specs.Limits.{most_tables, most_held, most_operations};
ghost use Rattle.snapshot.specs.Views.{tables_of, rowsets_of, vectors_of};
ghost use Rattle.version_state.specs.Sound.{has_table, has_rowset};
ghost use Rattle.replay.specs.Replay.{finished, ReplayIs};
ghost use Rattle.replay.specs.Sets.{table_entry, rowset_entry, vector_entry, state_in, RoomFor};

use crate::sets::Sets;
use ids::refusal::Refusal;
use snapshot::held::HeldColumns;
use snapshot::rowsets::Rowsets;
use snapshot::tables::Tables;
use snapshot::vectors::Vectors;
use version_state::VersionManagerInner;

impl Sets {
    fn live_tables(&self) -> Tables
        requires { length self.now.tables ≤ most_tables }
        ensures told { tables_of result ≡ map table_entry self.now.tables }
        ensures fits { result.count ≤ most_tables }
    {
        let mut out = Tables::none();
        for x in self.tables.as_slice() {
            out.push(x.table, x.shape, x.name);
        }
        out
    }

    fn live_rowsets(&self) -> Rowsets
        requires { length self.now.rowsets ≤ most_held }
        ensures told { rowsets_of result ≡ map rowset_entry self.now.rowsets }
        ensures fits { result.count ≤ most_held }
    {
        let mut out = Rowsets::none();
        for (at, x) in self.rowsets.as_slice().iter().enumerate() {
            out.insert(at, *x, 1);
        }
        out
    }

    // Without those whose rowset is not live.
    fn live_vectors(&self) -> Vectors
        requires { length self.now.vectors ≤ most_held }
        ensures told { vectors_of result ≡ keep (has_rowset (map rowset_entry self.now.rowsets)) (map vector_entry self.now.vectors) }
        ensures fits { result.count ≤ most_held }
    {
        let mut out = Vectors::none();
        for x in self.vectors.as_slice() {
            if self.rowsets.holds(x.pair()) {
                let at = out.count;
                out.insert(at, *x, 1);
            }
        }
        out
    }

    // Whether each rowset has its table.
    fn have_tables(&self) -> bool
        ensures { result ≡ all_of (has_table (state_in self.now).tables) (state_in self.now).pairs }
    {
        self.rowsets
            .as_slice()
            .iter()
            .all(|x| self.tables.holds(x.table))
    }

    // Internal: room for a frame is left, so that each list is within what may be held. See `Sets`.
    pub fn finish(&self) -> Result<VersionManagerInner, Refusal>
        requires { RoomFor most_operations self.now }
        ensures { ReplayIs (finished (state_in self.now)) result }
    {
        if !self.have_tables() {
            return Err(Refusal::RowsetWithoutTable);
        }
        Ok(VersionManagerInner {
            epoch: 1,
            next: self.next,
            tables: self.live_tables(),
            rowsets: self.live_rowsets(),
            vectors: self.live_vectors(),
            manifest: 0,
        })
    }
}
