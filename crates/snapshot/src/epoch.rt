// Tests of what is held by its epochs: what an epoch shows, and what is gone by it.
ghost use Rattle.std.specs.Prelude.{◌≡◌, Bool, ℕ};
ghost use Rattle.snapshot.specs.Entries.{shown_at, gone_at};

// A test of the epochs at which something was added and deleted.
pub trait EpochTest: Copy {
    ghost test: { Self → ℕ → ℕ → Bool };

    fn passes(self, added: u32, deleted: u32) -> bool
        ensures { result ≡ test self added deleted };
}

// Added at or before the epoch, and not deleted by then. Each test is a type, so that the type of a `Passing` says what passed: an enum would lose
// that, and be no plainer.
#[derive(Clone, Copy)]
pub struct ShownBy {
    pub epoch: u32,
}

// Deleted at or before the epoch; `deleted` is 0 while it is not. A type of its own, as above: an enum would be no plainer.
#[derive(Clone, Copy)]
pub struct GoneBy {
    pub epoch: u32,
}

impl EpochTest for ShownBy {
    ghost test = { λ s a d. shown_at s.epoch a d };

    fn passes(self, added: u32, deleted: u32) -> bool {
        let gone = GoneBy { epoch: self.epoch };
        added <= self.epoch && !gone.passes(added, deleted)
    }
}

impl EpochTest for GoneBy {
    ghost test = { λ s a d. gone_at s.epoch d };

    fn passes(self, _added: u32, deleted: u32) -> bool {
        deleted != 0 && deleted <= self.epoch
    }
}
