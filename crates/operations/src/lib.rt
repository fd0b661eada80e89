// One operation of a commit after another: judged on the state that the ones before it left, and applied to it.
#![tactic(auto)]

ghost use Rattle.std.specs.Prelude.{◌≡◌, true};
ghost use Rattle.manifest.specs.Operations.{operation_of, well_formed};
ghost use Rattle.version_state.specs.State.{state_of};
ghost use Rattle.operations.specs.Laws.{JudgedAlike};
ghost use Rattle.operations.specs.Steps.{step_of};
ghost use Rattle.operations.specs.Ready.{Leaves};
ghost use Rattle.operations.specs.Working.{Same};

use ids::refusal::Refusal;
use manifest::operation::EpochOp;
use snapshot::rowsets::RowsetIds;
use snapshot::vectors::VectorIds;
use working::Working;

pub mod pairs;
pub mod tables;
pub mod vectors;
pub mod working;

// Whether an operation is refused rests on the entries of its table, the held vector ids, the counts, the names and the next ids.
pub fn holds()
    ensures { JudgedAlike }
{}

impl Working<'_> {
    // Internal: the operation is well formed. Its place is named by a refusal. A match: each kind has its own ids, rules and refusals, so a table
    // of functions would be no plainer.
    #[tactic(auto, using(crate::proofs::Keeps::turned_step))]
    pub fn step(&mut self, place: usize, change: EpochOp) -> Result<(), Refusal>
        requires { well_formed (operation_of change) ≡ true }
        ensures told { Leaves (step_of place self.old.epoch (operation_of change) (state_of self.old.inner.now)) result (state_of self.new.inner.now) }
        ensures same { Same self.old self.new }
    {
        match change {
            EpochOp::CreateTable(table, shape, name) => self.create_table(
                place, table, shape, name,
            ),
            EpochOp::DropTable(table) => self.drop_table(place, table),
            EpochOp::AddRowSet(table, rowset) => self.add_rowset(
                place,
                RowsetIds { table, rowset },
            ),
            EpochOp::DeleteRowSet(table, rowset) => self.delete_rowset(
                place,
                RowsetIds { table, rowset },
            ),
            EpochOp::AddDV(table, rowset, vector) => self.add_dv(
                place,
                VectorIds {
                    table,
                    rowset,
                    vector,
                },
            ),
            EpochOp::DeleteDV(table, rowset, vector) => self.delete_dv(
                place,
                VectorIds {
                    table,
                    rowset,
                    vector,
                },
            ),
            EpochOp::NextIds(_, _, _) => Err(Refusal::Malformed(place)),
        }
    }
}
