// What is held, in columns. Rowsets and delete vectors are alike but for their ids, so that what both can do stands here once.
ghost use Rattle.std.specs.Prelude.{◌≡◌, Bool, true, false, cond, not, List, [], ◌∷◌, ℕ, ◌+◌, ◌≤◌, ◌<◌, Some, Err, length, get_or, set, take, drop};
ghost use Rattle.ids.specs.Ids.{is_id32};
ghost use Rattle.ids.specs.Limits.{most_held};
ghost use Rattle.lists.specs.Order.{less, same, compared};
ghost use Rattle.lists.specs.Keyed.{keep, all_of, has, put, changed, ascending, rank};
ghost use Rattle.snapshot.specs.Entries.{Entry, by_ids, nothing, added_at, deleted_at, below_next, passes, shown_by, gone_by, of_table, within};
ghost use Rattle.snapshot.specs.Found.{FoundAt, FirstPassing, Tests, BeforeTable, drop_below, leads};
ghost use Rattle.snapshot.specs.Views.{entry_of};
ghost use Rattle.snapshot.specs.Passing.{to_come};

use crate::counted::Counted;
use crate::epoch::{EpochTest, GoneBy, ShownBy};
use crate::passing::Passing;
use ids::TableNo;

// The ids of a held rowset or delete vector: the table's, then the rowset's, then a vector's own.
pub trait HeldIds: Copy + Ord {
    ghost numbers: { Self → List ℕ };

    // What follows the table's id in the least ids of a table.
    ghost zeros: { List ℕ };

    // The least ids of a table: its id, then zeros.
    fn first_of(table: TableNo) -> Self
        ensures { numbers result ≡ table.0 ∷ zeros };

    // Each id is below the next one of its kind.
    fn below(self, next: Self) -> bool
        ensures { result ≡ below_next (numbers self) (numbers next) };

    ghost in_order: { (a b : Self) → Self.partial_cmp a b ≡ Some (compared (numbers a) (numbers b)) };

    ghost alike: { (a b : Self) → Self.eq a b ≡ same (numbers a) (numbers b) };
}

// A held rowset or delete vector, with the epochs at which it was added and deleted; `deleted` is 0 until it is deleted.
#[derive(Clone, Copy)]
pub struct Held<I> {
    pub ids: I,
    pub added: u32,
    pub deleted: u32,
}

// Columns side by side, ascending by ids. They cross the C interface as plain numbers, so that no type can promise that the count is within them or
// that the ids rise: a method that needs it asks for it. What names a column each struct has of its own, and all else stands here.
pub trait HeldColumns: Counted {
    type Ids: HeldIds;

    fn none() -> Self
        ensures { (Self.count result ≡ 0) × (Self.entries result ≡ []) };

    // Internal, as are all that follow: the one at place `i`.
    fn get(&self, i: usize) -> Held<Self::Ids>
        requires fits { Self.count self.now ≤ most_held }
        requires inside { i < Self.count self.now }
        ensures { entry_of Self.Ids.numbers result ≡ get_or (Self.entries self.now) i nothing };

    // Overwrites the one at place `i`. It is lent: an `impl` does not take over clauses about such a struct by value.
    fn set(&mut self, i: usize, held: &Held<Self::Ids>)
        requires fits { Self.count self.old ≤ most_held }
        requires inside { i < Self.count self.old }
        ensures told { Self.entries self.new ≡ set (Self.entries self.old) i (entry_of Self.Ids.numbers held.now) }
        ensures count { Self.count self.new ≡ Self.count self.old };

    // One that is not held is put in at its place, as added at the epoch.
    fn insert(&mut self, at: usize, ids: Self::Ids, epoch: u32)
        requires room { Self.count self.old < most_held }
        requires rises { ascending by_ids (Self.entries self.old) ≡ true }
        requires place { FoundAt (Self.Ids.numbers ids) (Self.entries self.old) (Self.count self.old) (Err at) }
        ensures told { Self.entries self.new ≡ put by_ids (added_at epoch (Self.Ids.numbers ids)) (Self.entries self.old) }
        ensures count { Self.count self.new ≡ Self.count self.old + 1 }
        ensures rises { ascending by_ids (Self.entries self.new) ≡ true };

    // Without those from place `end` on.
    fn truncate(&mut self, end: usize)
        requires inside { end ≤ Self.count self.old }
        ensures told { Self.entries self.new ≡ take end (Self.entries self.old) }
        ensures count { Self.count self.new ≡ end };

    ghost sized: { (s : Self) → length (Self.entries s) ≡ Self.count s };

    ghost before_table: { (s : Self) (t i : ℕ) → i < Self.count s → BeforeTable t Self.Ids.zeros (get_or (Self.entries s) i nothing) };

    // Whether the ids at place `i` are before these.
    final fn is_before(&self, i: usize, ids: Self::Ids) -> bool
        requires fits { Self.count self.now ≤ most_held }
        requires inside { i < Self.count self.now }
        ensures { result ≡ less (by_ids (get_or (Self.entries self.now) i nothing)) (Self.Ids.numbers ids) }
    {
        self.get(i).ids < ids
    }

    // The ids rise strictly.
    final fn is_ascending(&self) -> bool
        requires fits { Self.count self.now ≤ most_held }
        ensures { result ≡ ascending by_ids (Self.entries self.now) }
    {
        (1..self.count()).all(
            |i| -> bool
                requires fits { Self.count self.now ≤ most_held }
                requires inside { (1 ≤ i) × (i < Self.count self.now) }
            { self.is_before(i - 1, self.get(i).ids) },
        )
    }

    // Each one's epochs are at most the epoch, and its ids below the next ones.
    final fn within(&self, epoch: u32, next: Self::Ids) -> bool
        requires fits { Self.count self.now ≤ most_held }
        ensures { result ≡ all_of (within epoch (Self.Ids.numbers next)) (Self.entries self.now) }
    {
        (0..self.count()).all(|i| {
            let held = self.get(i);
            held.added <= epoch && held.deleted <= epoch && held.ids.below(next)
        })
    }

    // By halves: the place of the first one that is not before these ids.
    final fn place(&self, ids: Self::Ids) -> usize
        requires fits { Self.count self.now ≤ most_held }
        requires rises { ascending by_ids (Self.entries self.now) ≡ true }
        ensures told { result ≡ rank by_ids (Self.Ids.numbers ids) (Self.entries self.now) }
        ensures inside { result ≤ Self.count self.now }
    {
        columns::place(self.count(), |i| self.is_before(i, ids))
    }

    // Whether these ids are at place `at`.
    final fn stands_at(&self, at: usize, ids: Self::Ids) -> bool
        requires fits { Self.count self.now ≤ most_held }
        ensures { result ≡ leads by_ids (λ x. true) (Self.Ids.numbers ids) (drop at (Self.entries self.now)) }
    {
        at < self.count() && self.get(at).ids == ids
    }

    // Where they are, or else would go.
    final fn find(&self, ids: Self::Ids) -> Result<usize, usize>
        requires fits { Self.count self.now ≤ most_held }
        requires rises { ascending by_ids (Self.entries self.now) ≡ true }
        ensures { FoundAt (Self.Ids.numbers ids) (Self.entries self.now) (Self.count self.now) result }
    {
        let at = self.place(ids);
        if self.stands_at(at, ids) {
            Ok(at)
        } else {
            Err(at)
        }
    }

    // Whether these ids are held, shown or waiting. One call, as `SortedList::holds` is: sharing it would be no plainer.
    final fn holds(&self, ids: Self::Ids) -> bool
        requires fits { Self.count self.now ≤ most_held }
        requires rises { ascending by_ids (Self.entries self.now) ≡ true }
        ensures { result ≡ has by_ids (Self.Ids.numbers ids) (Self.entries self.now) }
    {
        self.find(ids).is_ok()
    }

    // Whether the one at place `i` passes a test.
    final fn passes_at<T: EpochTest>(&self, i: usize, test: T) -> bool
        requires fits { Self.count self.now ≤ most_held }
        requires inside { i < Self.count self.now }
        ensures { result ≡ passes (T.test test) (get_or (Self.entries self.now) i nothing) }
    {
        let held = self.get(i);
        test.passes(held.added, held.deleted)
    }

    // Whether these ids are held, and the epoch shows them.
    final fn shows(&self, ids: Self::Ids, epoch: u32) -> bool
        requires fits { Self.count self.now ≤ most_held }
        requires rises { ascending by_ids (Self.entries self.now) ≡ true }
        ensures { result ≡ has by_ids (Self.Ids.numbers ids) (keep (shown_by epoch) (Self.entries self.now)) }
    {
        match self.find(ids) {
            Ok(at) => self.passes_at(at, ShownBy { epoch }),
            Err(_) => false,
        }
    }

    // One after another, as callers go along two lists and the place is near: the first from `from` on that is not before these ids.
    final fn from_on(&self, from: usize, ids: Self::Ids) -> usize
        requires fits { Self.count self.now ≤ most_held }
        ensures { drop result (Self.entries self.now) ≡ drop_below by_ids (Self.Ids.numbers ids) (drop from (Self.entries self.now)) }
    {
        (from..self.count())
            .find(|i| !self.is_before(*i, ids))
            .unwrap_or(self.count())
    }

    // Whether these ids are at place `at`, and the epoch shows them.
    final fn shows_at(&self, at: usize, ids: Self::Ids, epoch: u32) -> bool
        requires fits { Self.count self.now ≤ most_held }
        ensures { result ≡ leads by_ids (shown_by epoch) (Self.Ids.numbers ids) (drop at (Self.entries self.now)) }
    {
        self.stands_at(at, ids) && self.passes_at(at, ShownBy { epoch })
    }

    // The first place, from `from` on and before `end`, whose one passes a test.
    final fn next_passing<T: EpochTest>(&self, from: usize, end: usize, test: T) -> Option<usize>
        requires fits { Self.count self.now ≤ most_held }
        requires inside { end ≤ Self.count self.now }
        ensures { FirstPassing (passes (T.test test)) (Self.entries self.now) from end result }
    {
        (from..end).find(|i| self.passes_at(*i, test))
    }

    // All that pass a test, in order.
    final fn passing<T: EpochTest>(&self, test: T) -> Passing<'_, Self, T>
        requires fits { Self.count self.now ≤ most_held }
        ensures { to_come result ≡ keep (passes (T.test test)) (Self.entries self.now) }
    {
        Passing {
            columns: self,
            test,
            next: 0,
            end: self.count(),
        }
    }

    // Those that the epoch shows. It names the test, as `gone` does, so that callers need not: one function would be no plainer.
    final fn shown(&self, epoch: u32) -> Passing<'_, Self, ShownBy>
        requires fits { Self.count self.now ≤ most_held }
        ensures { to_come result ≡ keep (shown_by epoch) (Self.entries self.now) }
    {
        self.passing(ShownBy { epoch })
    }

    // Those of a table, which stand in one run.
    final fn shown_of(&self, table: TableNo, epoch: u32) -> Passing<'_, Self, ShownBy>
        requires fits { Self.count self.now ≤ most_held }
        requires rises { ascending by_ids (Self.entries self.now) ≡ true }
        requires id { is_id32 table.0 ≡ true }
        ensures { to_come result ≡ keep (of_table table.0) (keep (shown_by epoch) (Self.entries self.now)) }
    {
        let next = self.place(Self::Ids::first_of(table));
        let end = self.place(Self::Ids::first_of(TableNo(table.0 + 1)));
        Passing {
            columns: self,
            test: ShownBy { epoch },
            next,
            end,
        }
    }

    // Those that are gone by the epoch. It names the test, as `shown` does: one function would be no plainer.
    final fn gone(&self, epoch: u32) -> Passing<'_, Self, GoneBy>
        requires fits { Self.count self.now ≤ most_held }
        ensures { to_come result ≡ keep (gone_by epoch) (Self.entries self.now) }
    {
        self.passing(GoneBy { epoch })
    }

    // Deletes these ids at the epoch, if it shows them; answers whether it did.
    final fn delete(&mut self, ids: Self::Ids, epoch: u32) -> bool
        requires fits { Self.count self.old ≤ most_held }
        requires rises { ascending by_ids (Self.entries self.old) ≡ true }
        ensures told { result ≡ has by_ids (Self.Ids.numbers ids) (keep (shown_by epoch) (Self.entries self.old)) }
        ensures left { Self.entries self.new ≡ cond result (changed by_ids (Self.Ids.numbers ids) (deleted_at epoch) (Self.entries self.old)) (Self.entries self.old) }
        ensures count { Self.count self.new ≡ Self.count self.old }
        ensures rises { ascending by_ids (Self.entries self.new) ≡ true }
    {
        match self.find(ids) {
            Ok(at) if self.passes_at(at, ShownBy { epoch }) => {
                let held = self.get(at);
                self.set(
                    at,
                    &Held {
                        deleted: epoch,
                        ..held
                    },
                );
                true
            }
            _ => false,
        }
    }

    // Keeps those that pass a test.
    final fn retain<F: Fn(Held<Self::Ids>) -> bool>(&mut self, test: F)
        requires fits { Self.count self.old ≤ most_held }
        requires calls { F.IsAlwaysCallable test }
        ensures told { (p : _) → Tests (F.post test) (entry_of Self.Ids.numbers) p → Self.entries self.new ≡ keep p (Self.entries self.old) }
        ensures fewer { Self.count self.new ≤ Self.count self.old }
    {
        let mut left = 0;
        // By places: one is read and an earlier one written, in all columns, as the C interface lays them out. `Tables::remove` is this loop over
        // other rows: a trait for the one loop would be no plainer.
        for i in 0..self.count() {
            let held = self.get(i);
            if test(held) {
                self.set(left, &held);
                left += 1;
            }
        }
        self.truncate(left);
    }

    // Without those that are gone by the epoch.
    final fn let_go(&mut self, epoch: u32)
        requires fits { Self.count self.old ≤ most_held }
        ensures told { Self.entries self.new ≡ keep (λ x. not (gone_by epoch x)) (Self.entries self.old) }
        ensures fewer { Self.count self.new ≤ Self.count self.old }
    {
        let gone = GoneBy { epoch };
        self.retain(|held| !gone.passes(held.added, held.deleted));
    }
}
