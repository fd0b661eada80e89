// Live tables, in columns.
ghost use Rattle.std.specs.Prelude.{◌≡◌, true, [], ◌∷◌, ◌++◌, ◌+◌, ◌≤◌, ◌<◌, ltb, length, get_or, set, drop};
ghost use Rattle.ids.specs.Limits.{most_tables};
ghost use Rattle.ids.specs.Names.{longest_name, name_of};
ghost use Rattle.lists.specs.Keyed.{all_of, has, changed, without, ascending};
ghost use Rattle.columns.specs.Rows.{column};
ghost use Rattle.snapshot.specs.Tables.{by_table, created, no_table, name_taken, lock_held, with_lock, length_in};
ghost use Rattle.snapshot.specs.Found.{drop_below, leads};
ghost use Rattle.snapshot.specs.Views.{tables_of, table_of};

use ids::TableNo;
use ids::limits::{LONGEST_NAME, MOST_TABLES, NAME_BYTES};
use ids::name::Name;

// Live tables: the first `count` places of each column, ascending by id. A name has room for the longest one in `names`.
// The C interface passes this struct by value, so that its layout is fixed, and each call asks that the count fits.
#[repr(C)]
#[derive(Clone, Copy, Default)]
pub struct Tables {
    pub ids: [u32; MOST_TABLES],
    pub shapes: [u32; MOST_TABLES],
    pub lengths: [u32; MOST_TABLES],
    pub names: [u8; NAME_BYTES],
    pub locked: [bool; MOST_TABLES],
    pub count: usize,
}

// One of them. No other field hangs on `locked`, so an Option would be no plainer.
#[derive(Clone, Copy)]
pub struct Table {
    pub table: TableNo,
    pub shape: u32,
    pub name: Name,
    pub locked: bool,
}

// The columns are those of the C interface, so that each method names its own.
impl Tables {
    pub fn none() -> Tables
        ensures { (result.count ≡ 0) × (tables_of result ≡ []) }
    {
        Tables::default()
    }

    // Internal, as are all that follow: the bytes of the name at place `i`.
    pub fn name(&self, i: usize) -> &[u8]
        requires fits { self.now.count ≤ most_tables }
        requires inside { i < self.now.count }
        ensures told { result.now ≡ (get_or (tables_of self.now) i no_table).name }
        ensures short { length result.now ≤ longest_name }
    {
        let from = LONGEST_NAME * i;
        &self.names[from..from + self.length(i)]
    }

    // How many bytes the name at place `i` has.
    fn length(&self, i: usize) -> usize
        requires inside { i < most_tables }
        ensures told { result ≡ length_in (column self.now.lengths i) }
        ensures short { result ≤ longest_name }
    {
        let n = self.lengths[i] as usize;
        if n <= LONGEST_NAME { n } else { 0 }
    }

    // The one at place `i`.
    pub fn get(&self, i: usize) -> Table
        requires fits { self.now.count ≤ most_tables }
        requires inside { i < self.now.count }
        ensures { table_of result ≡ get_or (tables_of self.now) i no_table }
    {
        Table {
            table: TableNo(self.ids[i]),
            shape: self.shapes[i],
            name: Name::of(self.name(i)),
            locked: self.locked[i],
        }
    }

    // Whether a live table has the id.
    pub fn holds(&self, table: TableNo) -> bool
        requires fits { self.now.count ≤ most_tables }
        ensures { result ≡ has by_table (table.0 ∷ []) (tables_of self.now) }
    {
        self.ids[..self.count].contains(&table.0)
    }

    // Whether a live table has the name.
    pub fn taken(&self, name: Name) -> bool
        requires fits { self.now.count ≤ most_tables }
        ensures { result ≡ name_taken (name_of name) (tables_of self.now) }
    {
        (0..self.count).any(|i| self.name(i) == name.as_slice())
    }

    // The ids rise strictly.
    pub fn is_ascending(&self) -> bool
        requires fits { self.now.count ≤ most_tables }
        ensures { result ≡ ascending by_table (tables_of self.now) }
    {
        (1..self.count).all(|i| self.ids[i - 1] < self.ids[i])
    }

    // Every id is below the next one.
    pub fn all_below(&self, next: TableNo) -> bool
        requires fits { self.now.count ≤ most_tables }
        ensures { result ≡ all_of (λ t. ltb t.table next.0) (tables_of self.now) }
    {
        self.ids[..self.count].iter().all(|id| *id < next.0)
    }

    // The first place, from `from` on, whose id is not before this one.
    pub fn from_on(&self, from: usize, table: TableNo) -> usize
        requires fits { self.now.count ≤ most_tables }
        ensures { drop result (tables_of self.now) ≡ drop_below by_table (table.0 ∷ []) (drop from (tables_of self.now)) }
    {
        (from..self.count)
            .find(|i| self.ids[*i] >= table.0)
            .unwrap_or(self.count)
    }

    // Whether the table is at place `at`.
    pub fn stands_at(&self, at: usize, table: TableNo) -> bool
        requires fits { self.now.count ≤ most_tables }
        ensures { result ≡ leads by_table (λ x. true) (table.0 ∷ []) (drop at (tables_of self.now)) }
    {
        at < self.count && self.ids[at] == table.0
    }

    // Whether the lock of a live table with the id is held.
    pub fn is_locked(&self, table: TableNo) -> bool
        requires fits { self.now.count ≤ most_tables }
        ensures { result ≡ lock_held table.0 (tables_of self.now) }
    {
        (0..self.count).any(|i| self.ids[i] == table.0 && self.locked[i])
    }

    // The lock of each table of the id made held or free.
    pub fn set_locked(&mut self, table: TableNo, held: bool)
        requires fits { self.old.count ≤ most_tables }
        ensures told { tables_of self.new ≡ changed by_table (table.0 ∷ []) (with_lock held) (tables_of self.old) }
        ensures count { self.new.count ≡ self.old.count }
    {
        // By places: the lock goes where the id is read, and a zip of both would be no plainer.
        for i in 0..self.count {
            if self.ids[i] == table.0 {
                self.locked[i] = held;
            }
        }
    }

    // Overwrites the one at place `i`.
    fn set(&mut self, i: usize, table: Table)
        requires fits { self.old.count ≤ most_tables }
        requires inside { i < self.old.count }
        ensures told { tables_of self.new ≡ set (tables_of self.old) i (table_of table) }
        ensures count { self.new.count ≡ self.old.count }
    {
        self.ids[i] = table.table.0;
        self.shapes[i] = table.shape;
        self.lengths[i] = table.name.length() as u32;
        let from = LONGEST_NAME * i;
        self.names[from..from + LONGEST_NAME].copy_from_slice(&table.name.bytes);
        self.locked[i] = table.locked;
    }

    // A table after the others, its lock free.
    pub fn push(&mut self, table: TableNo, shape: u32, name: Name)
        requires room { self.old.count < most_tables }
        ensures told { tables_of self.new ≡ tables_of self.old ++ (created table.0 shape (name_of name) ∷ []) }
        ensures count { self.new.count ≡ self.old.count + 1 }
    {
        let count = self.count;
        self.count = count + 1;
        self.set(
            count,
            Table {
                table,
                shape,
                name,
                locked: false,
            },
        );
    }

    // Without the tables of an id.
    pub fn remove(&mut self, table: TableNo)
        requires fits { self.old.count ≤ most_tables }
        ensures told { tables_of self.new ≡ without by_table (table.0 ∷ []) (tables_of self.old) }
        ensures fewer { self.new.count ≤ self.old.count }
    {
        let mut left = 0;
        // By places: one is read and an earlier one written, in all columns.
        for i in 0..self.count {
            let held = self.get(i);
            if held.table != table {
                self.set(left, held);
                left += 1;
            }
        }
        self.count = left;
    }
}
