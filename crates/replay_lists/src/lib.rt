// Entries in the order of their keys, up to a fixed number of them.
#![tactic(auto)]

ghost use Rattle.std.specs.Prelude.{◌≡◌, true, ⊤, List, [], ℕ, ◌+◌, ◌<◌, ◌≤◌, length, IfOk, IfErr};
ghost use Rattle.lists.specs.Keyed.{has, put, without, ascending};
ghost use Rattle.lists.specs.Order.{compared};
ghost use Rattle.replay_lists.specs.Entries.{by, StandsAt, MissingAt};

use arrayvec::ArrayVec;
use std::alloc::AllocError;
use std::marker::Model;

mod own_keys;

// What has a key: some numbers, and keys are in the order of these.
pub trait Keyed {
    type Key: Ord + Copy;

    ghost key: { Self → Self.Key };

    ghost numbers: { Self.Key → List ℕ };

    fn key(&self) -> Self::Key
        ensures { result ≡ key self.now };

    ghost in_order: { (a b : Self.Key) → Self.Key.cmp a b ≡ compared (numbers a) (numbers b) };
}

// Contracts see the list of the entries, which ascends by their keys. It is not Copy, since no `ArrayVec` is.
#[derive(Drop)]
pub struct SortedList<T: Keyed, const N: usize> {
    entries: ArrayVec<T, N>,
}

impl<T: Keyed, const N: usize> Model for SortedList<T, N> {
    ghost use Rattle.std.specs.Prelude.{◌≡◌, List, true};
    ghost use Rattle.lists.specs.Keyed.{ascending};
    ghost use Rattle.replay_lists.specs.Entries.{by};

    ghost Value = { List T };

    ghost view = { λ s. s.entries.items };

    ghost invariant = { λ s. ascending (by T.numbers T.key) s.entries.items ≡ true };
}

impl<T: Keyed + Default, const N: usize> SortedList<T, N> {
    pub fn new() -> Self
        ensures { result ≡ [] }
    {
        SortedList {
            entries: ArrayVec::new(),
        }
    }
}

// By hand: a derived one would clone the entries, and a clone is not known to keep its key, as a copy is. It asks for no memory.
impl<T: Keyed + Default + Copy, const N: usize> Clone for SortedList<T, N> {
    ghost is_clone = { λ s t. t ≡ s };

    ghost is_infallible = { λ _. ⊤ };

    fn clone(&self) -> Result<Self, AllocError> {
        let SortedList { entries } = self;
        Ok(SortedList {
            entries: ArrayVec::try_from(entries.as_slice()).unwrap(),
        })
    }
}

impl<T: Keyed, const N: usize> SortedList<T, N> {
    pub fn as_slice(&self) -> &[T]
        ensures all { result.now ≡ self.now }
        ensures rising { ascending (by T.numbers T.key) self.now ≡ true }
    {
        self.entries.as_slice()
    }

    // Where the key is, or would go. One call of std, as in `pins`: a shared function would be no plainer.
    fn find(&self, key: T::Key) -> Result<usize, usize>
        ensures found { IfOk result (StandsAt (by T.numbers T.key) (T.numbers key) self.now) }
        ensures missing { IfErr result (MissingAt (by T.numbers T.key) (T.numbers key) self.now) }
    {
        self.as_slice().binary_search_by_key(&key, |x| x.key())
    }

    // One call, as `HeldColumns::holds` of `snapshot` is: sharing it would be no plainer.
    pub fn holds(&self, key: T::Key) -> bool
        ensures { result ≡ has (by T.numbers T.key) (T.numbers key) self.now }
    {
        self.find(key).is_ok()
    }
}

impl<T: Keyed + Default + Drop, const N: usize> SortedList<T, N> {
    // Internal: the caller has checked that there is room. The entry in the place of one with its key, or put in.
    pub fn put(&mut self, x: T)
        requires { length self.old < N }
        ensures told { self.new ≡ put (by T.numbers T.key) x self.old }
        ensures rising { ascending (by T.numbers T.key) self.new ≡ true }
    {
        match self.find(x.key()) {
            Ok(at) => self.entries.as_mut_slice()[at] = x,
            Err(at) => self.entries.insert(at, x),
        }
    }

    // The entry with the key taken out, where it is there.
    pub fn remove(&mut self, key: T::Key)
        ensures told { self.new ≡ without (by T.numbers T.key) (T.numbers key) self.old }
        ensures rising { ascending (by T.numbers T.key) self.new ≡ true }
    {
        if let Ok(at) = self.find(key) {
            self.entries.remove(at);
        }
    }
}
