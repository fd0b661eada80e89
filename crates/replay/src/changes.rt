// What one operation does to the lists and to the next ids.
ghost use Rattle.std.specs.Prelude.{◌≡◌, true, ◌<◌, ◌||◌, ◌∷◌, []};
ghost use Rattle.lists.specs.Keyed.{has};
ghost use Rattle.ids.specs.Ids.{largest32};
ghost use Rattle.ids.specs.Names.{name_of};
ghost use Rattle.manifest.specs.Operations.{create_table, drop_table, operation_of, well_formed};
ghost use Rattle.snapshot.specs.Tables.{by_table, name_taken};
ghost use Rattle.replay.specs.Sets.{state_in, RoomFor, one_of, left_by};

use crate::sets::{LiveTable, Sets};
use ids::name::Name;
use ids::refusal::Refusal;
use ids::{RowsetNo, TableNo, VectorNo};
use manifest::operation::EpochOp;
use snapshot::rowsets::RowsetIds;
use snapshot::vectors::VectorIds;

// Internal: what puts an entry in asks for the room of one, see `Sets`.
impl Sets {
    fn name_taken(&self, name: Name) -> bool
        ensures { result ≡ name_taken (name_of name) (state_in self.now).tables }
    {
        self.tables.as_slice().iter().any(|x| x.name == name)
    }

    // Whether a live table has the id or the name.
    fn clashes(&self, x: LiveTable) -> bool
        ensures { result ≡ has by_table (x.table.0 ∷ []) (state_in self.now).tables || name_taken (name_of x.name) (state_in self.now).tables }
    {
        self.tables.holds(x.table) || self.name_taken(x.name)
    }

    // `T`.
    fn create(&mut self, line: usize, x: LiveTable) -> Result<(), Refusal>
        requires room { RoomFor 1 self.old }
        requires id { x.table.0 < largest32 }
        ensures { (one_of line (create_table x.table.0 x.shape (name_of x.name)) (state_in self.old)) ≡ left_by result self.new }
    {
        if self.clashes(x) {
            return Err(Refusal::TableConflict(line));
        }
        self.tables.put(x);
        self.next.table = TableNo(self.next.table.0.max(x.table.0 + 1));
        Ok(())
    }

    // `X`, as `operations` has it over its own tables: one function over both types would be no plainer.
    fn drop(&mut self, line: usize, table: TableNo) -> Result<(), Refusal>
        ensures { (one_of line (drop_table table.0) (state_in self.old)) ≡ left_by result self.new }
    {
        if !self.tables.holds(table) {
            return Err(Refusal::TableConflict(line));
        }
        self.tables.remove(table);
        Ok(())
    }

    // The operation on line `line`. A match: each kind has its own fields and list, so a table of functions would be no plainer.
    pub fn apply(&mut self, line: usize, change: EpochOp) -> Result<(), Refusal>
        requires room { RoomFor 1 self.old }
        requires well { well_formed (operation_of change) ≡ true }
        ensures { (one_of line (operation_of change) (state_in self.old)) ≡ left_by result self.new }
    {
        match change {
            EpochOp::CreateTable(table, shape, name) => {
                return self.create(line, LiveTable { table, shape, name });
            }
            EpochOp::DropTable(table) => return self.drop(line, table),
            EpochOp::AddRowSet(table, rowset) => {
                self.rowsets.put(RowsetIds { table, rowset });
                self.next.rowset = RowsetNo(self.next.rowset.0.max(rowset.0 + 1));
            }
            EpochOp::DeleteRowSet(table, rowset) => self
                .rowsets
                .remove(RowsetIds { table, rowset }),
            EpochOp::AddDV(table, rowset, vector) => {
                self.vectors.put(VectorIds {
                    table,
                    rowset,
                    vector,
                });
                self.next.vector = VectorNo(self.next.vector.0.max(vector.0 + 1));
            }
            EpochOp::DeleteDV(table, rowset, vector) => {
                self.vectors.remove(VectorIds {
                    table,
                    rowset,
                    vector,
                });
            }
            EpochOp::NextIds(table, rowset, vector) => {
                self.next.table = self.next.table.max(table);
                self.next.rowset = self.next.rowset.max(rowset);
                self.next.vector = self.next.vector.max(vector);
            }
        }
        Ok(())
    }
}
