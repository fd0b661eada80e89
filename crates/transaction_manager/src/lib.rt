// One lock a table, for deletion or compaction: taken and given back.
#![tactic(auto)]

ghost use Rattle.std.specs.Prelude.{◌≡◌, false, [], ◌∷◌, ◌≤◌};
ghost use Rattle.lists.specs.Keyed.{has};
ghost use Rattle.ids.specs.Limits.{most_tables};
ghost use Rattle.ids.specs.Verdicts.{judged};
ghost use Rattle.snapshot.specs.Tables.{by_table, lock_held};
ghost use Rattle.snapshot.specs.Views.{tables_of};
ghost use Rattle.version_state.specs.State.{state_of};
ghost use Rattle.version_state.specs.Sound.{bad_inner};
ghost use Rattle.transaction_manager.specs.Locks.{lock_rule, rules_of};
ghost use Rattle.transaction_manager.specs.Says.{LockIs};
ghost use Rattle.transaction_manager.specs.Laws.{LockLaws};

use ids::TableNo;
use ids::refusal::Refusal;
use snapshot::tables::Tables;
use version_state::VersionManagerInner;

// The laws of locks.
pub fn holds()
    ensures { LockLaws }
{}

// A lock that is to be held, or to be free, and whether it was held.
fn against(held: bool, was: bool) -> Result<(), Refusal>
    ensures { result ≡ judged (lock_rule held was ∷ []) }
{
    match (held, was) {
        (true, true) => Err(Refusal::LockHeld),
        (false, false) => Err(Refusal::LockNotHeld),
        _ => Ok(()),
    }
}

// Refusals 2, 11, then 25 or 27, in this order.
fn judge(tables: &Tables, table: TableNo, held: bool) -> Result<(), Refusal>
    requires { tables.now.count ≤ most_tables }
    ensures { result ≡ judged (rules_of table.0 held (has by_table (table.0 ∷ []) (tables_of tables.now)) (lock_held table.0 (tables_of tables.now))) }
{
    if !table.is_id() {
        return Err(Refusal::Malformed(0));
    }
    if !tables.holds(table) {
        return Err(Refusal::TableNotLive(0));
    }
    against(held, tables.is_locked(table))
}

// Internal: takes or gives back a table's lock. The state has passed 29. Only `held` differs, so two functions would be no plainer. It alters the
// state, so that a type for one that has passed 29 would be no plainer either.
pub fn relock(inner: &mut VersionManagerInner, table: TableNo, held: bool) -> Result<(), Refusal>
    requires { bad_inner inner.old ≡ false }
    ensures { LockIs (state_of inner.old) table.0 held result inner.new }
{
    judge(&inner.tables, table, held)?;
    inner.tables.set_locked(table, held);
    Ok(())
}
