// What is held, as a list with a count. It stands apart from `HeldColumns`, whose methods answer a `Passing`: the ghost fields of that need the count,
// and the two would name one another.
ghost use Rattle.std.specs.Prelude.{◌≡◌, List, ℕ};
ghost use Rattle.snapshot.specs.Entries.{Entry};

pub trait Counted {
    ghost entries: { Self → List Entry };

    ghost count: { Self → ℕ };

    fn count(&self) -> usize
        ensures { result ≡ count self.now };
}
