// Operations on tables. All here is internal.
ghost use Rattle.std.specs.Prelude.{◌≡◌, true};
ghost use Rattle.ids.specs.Ids.{is_id32};
ghost use Rattle.ids.specs.Names.{name_of};
ghost use Rattle.manifest.specs.Operations.{create_table, drop_table};
ghost use Rattle.version_state.specs.State.{state_of};
ghost use Rattle.operations.specs.Ready.{Turned};
ghost use Rattle.operations.specs.Working.{Same};

use crate::working::Working;
use ids::TableNo;
use ids::limits::MOST_TABLES;
use ids::name::Name;
use ids::refusal::Refusal;

impl Working<'_> {
    // `T`: creates a table. Here alone the id has to be valid: the next id is one more. Its fields one by one, as in the operation: a struct for them
    // would be no plainer.
    #[tactic(auto, using(crate::proofs::Turns::table_turns), unfolding(crate::specs::Ready::Turned, crate::specs::Ready::Leaves))]
    pub fn create_table(
        &mut self,
        place: usize,
        table: TableNo,
        shape: u32,
        name: Name,
    ) -> Result<(), Refusal>
        requires { is_id32 table.0 ≡ true }
        ensures told { Turned place self.old.epoch (create_table table.0 shape (name_of name)) (state_of self.old.inner.now) result (state_of self.new.inner.now) }
        ensures same { Same self.old self.new }
    {
        if table != self.inner.next.table {
            return Err(Refusal::IdNotDrawn(place));
        }
        if self.inner.tables.taken(name) {
            return Err(Refusal::NameTaken(place));
        }
        if MOST_TABLES <= self.inner.tables.count {
            return Err(Refusal::TablesFull(place));
        }
        self.inner.next.table = TableNo(table.0 + 1);
        self.inner.tables.push(table, shape, name);
        Ok(())
    }

    // `X`. As a replay does it, but for the refusal and for lists of another type: one function would be no plainer.
    #[tactic(auto, unfolding(crate::specs::Ready::Turned, crate::specs::Ready::Leaves))]
    pub fn drop_table(&mut self, place: usize, table: TableNo) -> Result<(), Refusal>
        ensures told { Turned place self.old.epoch (drop_table table.0) (state_of self.old.inner.now) result (state_of self.new.inner.now) }
        ensures same { Same self.old self.new }
    {
        if !self.inner.tables.holds(table) {
            return Err(Refusal::TableNotLive(place));
        }
        self.inner.tables.remove(table);
        Ok(())
    }
}
